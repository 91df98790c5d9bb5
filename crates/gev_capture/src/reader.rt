ghost use Rattle.std.specs.Prelude.{◌≡◌, ◌≢◌, ◌≤◌, ◌+◌, None, Some, Err, IfOk, option_map, length, []};
ghost use Rattle.gev_capture.specs.declared.form.SectionInterface.{SectionInterface as SectionInterfaceOf};
ghost use Rattle.gev_capture.specs.Files.{fresh};
ghost use Rattle.gev_capture.specs.Steps.{MayChange, StandsWithin, interfaces_after, entry_packet};
ghost use Rattle.gev_capture.specs.Walking.{captured_packet, Nexts};

use crate::capture_end::CaptureEnd;
use crate::captured::Captured;
use crate::form::{Form, SectionInterface};
use crate::reading::find_record;
use crate::room::Room;
use crate::step::{Change, Entry};
use arrayvec::ArrayVec;
use gev_links::Source;
use gev_types::NoMemory;
use std::alloc::Global;
use std::marker::Model;

/// Reads the records of a capture from a source, one after the other.
///
/// Contracts see the format behind the records that were given, their number, the packet in the last of
/// them, and the bytes that were read behind it.
#[derive(Drop)]
pub struct Reader {
    room: Room,
    form: Form,
    interfaces: ArrayVec<SectionInterface, 256>,
    records: u64,
    size: usize,
    entry: Option<Entry>,
}

impl Model for Reader {
    ghost use Rattle.gev_capture.specs.Walking.{CaptureState, state_of, IsReader};

    ghost Value = { CaptureState };

    ghost view = { λ r. state_of r.form r.interfaces.items r.records r.size r.entry r.room };

    ghost invariant = { λ r. IsReader r.form r.interfaces.items r.size r.entry r.room };
}

/// The interfaces behind a record.
fn change_interfaces(interfaces: &mut ArrayVec<SectionInterface, 256>, change: Change)
    requires { MayChange interfaces.old.items change }
    ensures { interfaces.new.items ≡ interfaces_after change interfaces.old.items }
{
    match change {
        Change::Same => {}
        Change::Cleared => interfaces.clear(),
        Change::More(interface) => interfaces.push(interface),
        Change::Now(place, interface) => interfaces.as_mut_slice()[place] = interface,
    }
}

/// The packet that stands so in these bytes.
fn lent(entry: Entry, bytes: &[u8]) -> Captured<'_>
    requires { StandsWithin (length bytes.now) (Some entry) }
    ensures { captured_packet result ≡ entry_packet bytes.now entry }
{
    match entry {
        Entry::Packet(slot) => Captured::Packet {
            time: slot.time,
            link: slot.link,
            bytes: &bytes[slot.at..][..slot.count],
        },
        Entry::Dropped { before, now } => Captured::Dropped { before, now },
    }
}

impl Reader {
    /// A reader at the start of a capture. All memory that reading needs is taken here.
    pub fn new(alloc: Global) -> Result<Reader, NoMemory>
        ensures { IfOk result (λ reader. reader ≡ record { format = fresh; records = 0; packet = None; held = [] }) }
    {
        let room = Room::new(alloc)?;
        Ok(Reader {
            room,
            form: Form::Fresh,
            interfaces: ArrayVec::new(),
            records: 0,
            size: 0,
            entry: None,
        })
    }

    /// Goes on to the next record, whose packet `packet` then lends, or says why there is none. Takes no memory,
    /// and reads only while the bytes that are held tell of no record.
    ///
    /// After an end the reader stands where it stood, with the bytes that it read: a further call tries again.
    pub fn next<S: Source>(&mut self, source: &mut S) -> Result<(), CaptureEnd>
        ensures next { Nexts result self.old self.new (S.left source.old) (S.left source.new) (S.faults source.old) (S.faults source.new) }
        ensures steady { result ≢ Err CaptureEnd.ReadFault → S.faults source.new ≡ S.faults source.old }
        ensures never_falls { S.faults source.old ≤ S.faults source.new }
    {
        self.room.skip(self.size);
        self.size = 0;
        self.entry = None;
        let found = match find_record(
            &mut self.room,
            source,
            self.form,
            self.interfaces.as_slice(),
        ) {
            Ok(found) => found,
            Err(end) => return Err(end),
        };
        change_interfaces(&mut self.interfaces, found.change);
        self.form = found.form;
        self.size = found.size;
        self.entry = found.packet;
        self.records = self.records.saturating_add(1);
        Ok(())
    }

    /// How many records were given, at most 18,446,744,073,709,551,615.
    pub fn records(&self) -> u64
        ensures { result ≡ self.now.records }
    {
        self.records
    }

    /// What the record that was given last tells of packets, if anything.
    pub fn packet(&self) -> Option<Captured<'_>>
        ensures { option_map captured_packet result ≡ self.now.packet }
    {
        match self.entry {
            Some(entry) => Some(lent(entry, self.room.held())),
            None => None,
        }
    }
}
