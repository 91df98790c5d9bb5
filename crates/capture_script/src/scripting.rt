ghost use Rattle.std.specs.Prelude.{◌≡◌, ◌≢◌, ◌≤◌, ◌++◌, ◌||◌, length, true, IfOk, OnOk};
ghost use Rattle.script_runs.specs.Verdicts.{IfTold};
ghost use Rattle.capture_runs.specs.Ends.{RunEnds, IsWhole, AnswersContent};
ghost use Rattle.capture_script.specs.Script.{Scripted, new_script, opening_lines, text_of, both, goes_on, ticks, carries, is_for, carried, seen, stands_in, closing_lines, has_datagram, capture_script, begun_script};
ghost use Rattle.gev_capture.specs.Contents.{seen_as};
ghost use Rattle.capture_script.specs.Scripting.{StandsFor, AddsLines};

use crate::playing::{MOST_BYTES, Playing};
use crate::writing::{add_datagram, add_opening, add_takes};
use capture_runs::{Ending, Telling, run_capture};
use gev_capture::Content;
use gev_links::{Sink, Source};
use gev_script::Line;
use gev_types::NoMemory;
use std::alloc::Global;
use std::marker::Model;
use take_lines::add_line;

/// The most hex digits of a datagram in a script.
const MOST_DIGITS: usize = 19_998;

/// The most bytes of text that are held back: 65,536, and the lines of a packet.
const MOST_HELD: usize = 90_000;

/// Who writes the script of the datagrams to one port. Contracts see the port, what was played, and the moment of the
/// last `t` line.
#[derive(Drop)]
pub(crate) struct Scripting {
    alloc: Global,
    port: u16,
    playing: Playing,
    moment: u64,
    room: Vec<u8>,
}

impl Model for Scripting {
    ghost use Rattle.std.specs.Prelude.{◌≡◌, length};
    ghost use Rattle.capture_script.specs.Scripting.{ScriptingState};

    ghost Value = { ScriptingState };

    ghost view = { λ s. record { port = s.port; playing = s.playing; moment = s.moment } };

    ghost invariant = { λ s. length s.room.items ≡ 19998 };
}

/// Whether a datagram to the port `to` stands in the script of `port`, and has a length that a line may hold.
fn is_for(port: u16, to: u16, bytes: &[u8]) -> bool
    ensures is { result ≡ is_for port to bytes.now }
    ensures some { result ≡ true → 1 ≤ length bytes.now }
    ensures few { result ≡ true → length bytes.now ≤ 9999 }
{
    to == port && !bytes.is_empty() && bytes.len() <= MOST_BYTES
}

impl Scripting {
    /// Time goes on to this moment.
    fn go_on(&mut self, moment: u64, out: &mut Vec<u8>) -> Result<(), NoMemory>
        ensures { OnOk result ((s : Scripted) → StandsFor self.old s → AddsLines (goes_on moment s) self.new out.old.items out.new.items) }
    {
        add_line(self.alloc, &Line::Tick { moment }, out)?;
        self.moment = moment;
        add_takes(self.alloc, self.playing.tick(moment), out)
    }

    /// Time goes on to this moment, where it's above that of the last `t` line.
    fn tick(&mut self, moment: u64, out: &mut Vec<u8>) -> Result<(), NoMemory>
        ensures { OnOk result ((s : Scripted) → StandsFor self.old s → AddsLines (ticks moment s) self.new out.old.items out.new.items) }
    {
        if self.moment < moment {
            return self.go_on(moment, out);
        }
        Ok(())
    }

    /// The datagram comes.
    fn carry(&mut self, bytes: &[u8], out: &mut Vec<u8>) -> Result<(), NoMemory>
        requires some { 1 ≤ length bytes.now }
        requires few { length bytes.now ≤ 9999 }
        ensures { OnOk result ((s : Scripted) → StandsFor self.old s → AddsLines (carries bytes.now s) self.new out.old.items out.new.items) }
    {
        add_datagram(self.alloc, bytes, self.room.as_mut_slice(), out)?;
        add_takes(self.alloc, self.playing.receive(bytes), out)
    }

    /// The datagram comes at this moment.
    fn carry_at(&mut self, moment: u64, bytes: &[u8], out: &mut Vec<u8>) -> Result<(), NoMemory>
        requires some { 1 ≤ length bytes.now }
        requires few { length bytes.now ≤ 9999 }
        ensures { OnOk result ((s : Scripted) → StandsFor self.old s
            → AddsLines (both (ticks moment s) (carries bytes.now)) self.new out.old.items out.new.items) }
    {
        self.tick(moment, out)?;
        self.carry(bytes, out)
    }

    /// The datagram comes at this moment, sent to the port `to`.
    fn carry_for(
        &mut self,
        moment: u64,
        to: u16,
        bytes: &[u8],
        out: &mut Vec<u8>,
    ) -> Result<(), NoMemory>
        ensures { OnOk result ((s : Scripted) → StandsFor self.old s
            → AddsLines (carried moment to bytes.now s) self.new out.old.items out.new.items) }
    {
        if is_for(self.port, to, bytes) {
            return self.carry_at(moment, bytes, out);
        }
        Ok(())
    }

    /// Whether this stands in the script.
    fn stands_in(&self, what: Content<'_>) -> bool
        ensures { result ≡ stands_in self.now.port (seen_as what.entry) }
    {
        match what {
            Content::Datagram {
                sender: _,
                receiver,
                bytes,
            } => is_for(self.port, receiver.port, bytes),
            Content::Other => false,
            Content::Fragment => false,
            Content::Cut => false,
            Content::Dropped { .. } => false,
        }
    }

    /// Whether a `d` line is written behind this, where it's known whether one was before.
    fn is_told_by(&self, told: bool, what: Content<'_>) -> bool
        ensures { result ≡ (told || stands_in self.now.port (seen_as what.entry)) }
    {
        told || self.stands_in(what)
    }

    /// Adds the lines of a packet.
    fn tell(&mut self, moment: u64, what: Content<'_>, out: &mut Vec<u8>) -> Result<(), NoMemory>
        ensures { OnOk result ((s : Scripted) → StandsFor self.old s
            → AddsLines (seen moment (seen_as what.entry) s) self.new out.old.items out.new.items) }
    {
        match what {
            Content::Datagram {
                sender: _,
                receiver,
                bytes,
            } => self.carry_for(moment, receiver.port, bytes, out),
            Content::Other => Ok(()),
            Content::Fragment => Ok(()),
            Content::Cut => Ok(()),
            Content::Dropped { .. } => Ok(()),
        }
    }

    /// Adds the end of the script.
    fn end(&mut self, out: &mut Vec<u8>) -> Result<(), NoMemory>
        ensures { OnOk result ((s : Scripted) → StandsFor self.old s → out.new.items ≡ out.old.items ++ text_of (closing_lines s)) }
    {
        add_line(self.alloc, &Line::Stop { flags: 0 }, out)?;
        add_takes(self.alloc, self.playing.stop(), out)?;
        add_line(self.alloc, &Line::End, out)
    }
}

/// The script's writer, and whether a `d` line is written.
#[derive(Drop)]
struct Teller {
    scripting: Scripting,
    told: bool,
}

impl Telling for Teller {
    ghost use Rattle.capture_script.specs.Script.{Written, script_texts};
    ghost use Rattle.capture_script.specs.Scripting.{IsWritten};

    ghost Plain = { Written };

    ghost texts = { script_texts };

    ghost stands_for = { λ teller w. IsWritten teller.scripting teller.told w };

    fn packet(
        &mut self,
        _begin: u64,
        moment: u64,
        what: Content<'_>,
        out: &mut Vec<u8>,
    ) -> Result<(), NoMemory> {
        self.told = self.scripting.is_told_by(self.told, what);
        self.scripting.tell(moment, what, out)
    }

    fn is_told(&self) -> bool {
        self.told
    }

    fn finish(&self, _out: &mut Vec<u8>) -> Result<(), NoMemory> {
        Ok(())
    }

    fn close(&mut self, out: &mut Vec<u8>) -> Result<(), NoMemory> {
        self.scripting.end(out)
    }
}

/// Who writes the script of the datagrams to this port, before the first.
fn new_scripting(alloc: Global, port: u16, p: u32, size: u32) -> Result<Scripting, NoMemory>
    requires p_some { 528 ≤ p }
    requires p_most { p ≤ 8964 }
    requires some { 1 ≤ size }
    requires in_limits { size ≤ 67108864 }
    ensures { IfOk result (λ scripting. StandsFor scripting (new_script port p size)) }
{
    Ok(Scripting {
        alloc,
        port,
        playing: Playing::new(alloc, p, size)?,
        moment: 0,
        room: vec![in alloc; 0u8; MOST_DIGITS]?,
    })
}

/// The opening of the script, with room for what is held back before it's written.
fn new_text(alloc: Global, p: u32, size: u32) -> Result<Vec<u8>, NoMemory>
    requires p_some { 528 ≤ p }
    requires p_most { p ≤ 8964 }
    ensures { IfOk result (λ out. out.items ≡ text_of (opening_lines p size)) }
{
    let mut out = Vec::new(alloc);
    out.reserve(MOST_HELD)?;
    add_opening(alloc, p, size, &mut out)?;
    Ok(out)
}

/// Writes a replay script of the datagrams to one port of the capture that the source gives: those of 1 to 9,999
/// bytes, each at its moment, with a take for each buffer that is filled, which goes back at once. `p` is the most
/// bytes of a payload, 528 to 8964, and `size` that of a buffer, 1 to 67,108,864.
///
/// Where a record of the capture is refused, the script of the packets before it is written with its end. Where
/// reading fails, it's written without.
pub fn write_capture<S: Source, K: Sink>(
    alloc: Global,
    port: u16,
    p: u32,
    size: u32,
    source: &mut S,
    sink: &mut K,
) -> Ending
    requires p_some { 528 ≤ p }
    requires p_most { p ≤ 8964 }
    requires some { 1 ≤ size }
    requires in_limits { size ≤ 67108864 }
    ensures ends { RunEnds (capture_script port p size) (begun_script port p size) (has_datagram port) result
        (S.left source.old) (S.left source.new) (S.faults source.old) (S.faults source.new)
        (K.written sink.old) (K.written sink.new) (K.faults sink.old) (K.faults sink.new) }
    ensures exact { IfTold (S.left source.old) (λ content. AnswersContent (has_datagram port) result content) }
    ensures reads_steady { IsWhole result → S.faults source.new ≡ S.faults source.old }
    ensures writes_steady { result ≢ Ending.WriteFault → K.faults sink.new ≡ K.faults sink.old }
{
    let mut out = match new_text(alloc, p, size) {
        Ok(out) => out,
        Err(NoMemory) => return Ending::NoMemory,
    };
    match new_scripting(alloc, port, p, size) {
        Ok(scripting) => {
            let mut teller = Teller {
                scripting,
                told: false,
            };
            run_capture(alloc, source, sink, &mut teller, &mut out)
        }
        Err(NoMemory) => Ending::NoMemory,
    }
}
