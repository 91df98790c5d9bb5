ghost use Rattle.std.specs.Prelude.{◌≡◌, ◌≢◌, ◌≤◌, ◌<◌, ◌+◌, ◌-◌, ◌^◌, ℕ, List, ◌++◌, [], length, None, Some, OnOk, Result, Err};
ghost use Rattle.gev_capture.specs.Files.{fresh};
ghost use Rattle.gev_capture.specs.Captures.{with_packet};
ghost use Rattle.gev_capture.specs.Reading.{most_held};
ghost use Rattle.gev_capture.specs.Sightings.{sighted};
ghost use Rattle.script_runs.specs.Verdicts.{IfTold};
ghost use Rattle.capture_runs.specs.Texts.{whole, broken, tells, Tells};
ghost use Rattle.capture_runs.specs.Ends.{RunEnds, IsWhole, AnswersContent};
ghost use Rattle.capture_runs.specs.Turns.{moments_behind, planned_ending, EndsWith, GoesOn, TurnEnds};
ghost use Rattle.capture_runs.specs.declared.ending.Ending.{Ending as EndingOf};

use crate::ending::Ending;
use crate::stop::Stop;
use crate::telling::Telling;
use crate::writing::{write_if_long, write_rest};
use gev_capture::{CaptureEnd, Moments, Reader, what_of};
use gev_links::{Failed, Sink, Source};
use gev_types::NoMemory;
use std::alloc::Global;

/// Tells of the packet in the record that was read last, if there is one.
fn tell_packet<T: Telling>(
    reader: &Reader,
    moments: &mut Moments,
    telling: &mut T,
    out: &mut Vec<u8>,
) -> Result<(), NoMemory>
    ensures moments { moments.new ≡ moments_behind moments.old (with_packet reader.now.packet []) }
    ensures told { OnOk result ((p : T.Plain) → T.stands_for telling.old p
        → Tells T.texts p (sighted moments.old (with_packet reader.now.packet [])) (T.stands_for telling.new) out.old.items out.new.items) }
{
    match reader.packet() {
        Some(packet) => {
            moments.note(packet);
            telling.packet(moments.begin(), moments.last(), what_of(packet), out)
        }
        None => Ok(()),
    }
}

/// The ending where the capture ends so behind this many records, if its text is written, which tells of something or
/// not.
fn planned_ending(records: u64, told: bool, end: CaptureEnd) -> Ending
    requires { records < 2 ^ 64 - 1 }
    ensures { result ≡ planned_ending records told end }
{
    match end {
        CaptureEnd::Ended => Ending::Done { told },
        CaptureEnd::Refused(kind) => Ending::BadCapture {
            record: records + 1,
            kind,
        },
        CaptureEnd::ReadFault => Ending::ReadFault,
    }
}

/// Writes what is still to be written where the capture ends so behind this many records, and answers how the
/// run ends.
fn end_run<K: Sink, T: Telling>(
    records: u64,
    end: CaptureEnd,
    sink: &mut K,
    telling: &mut T,
    out: &mut Vec<u8>,
) -> Ending
    requires { records < 2 ^ 64 - 1 }
    ensures ends { EndsWith T.texts (T.stands_for telling.old) end records result out.old.items
        (K.written sink.old) (K.written sink.new) (K.faults sink.old) (K.faults sink.new) }
    ensures steady { result ≢ Ending.WriteFault → K.faults sink.new ≡ K.faults sink.old }
{
    let told = telling.is_told();
    match write_rest(end, sink, telling, out) {
        Ok(()) => planned_ending(records, told, end),
        Err(Stop::WriteFault) => Ending::WriteFault,
        Err(Stop::NoMemory) => Ending::NoMemory,
    }
}

/// Reads a record and tells of it, and answers the ending, if the run doesn't go on.
fn run_next<S: Source, K: Sink, T: Telling>(
    source: &mut S,
    sink: &mut K,
    reader: &mut Reader,
    moments: &mut Moments,
    telling: &mut T,
    out: &mut Vec<u8>,
) -> Option<Ending>
    requires counted { reader.old.records ≤ 2 ^ 64 - 1 }
    requires few { length reader.old.held ≤ most_held }
    ensures goes { result ≡ None → GoesOn T.texts (T.stands_for telling.old) (T.stands_for telling.new) reader.old reader.new moments.old moments.new out.old.items out.new.items
        (S.left source.old) (S.left source.new) (K.written sink.old) (K.written sink.new) }
    ensures counted { result ≡ None → reader.new.records ≤ 2 ^ 64 - 1 }
    ensures falls { result ≡ None → reader.old.records < reader.new.records }
    ensures ends { (ending : EndingOf) → result ≡ Some ending → TurnEnds T.texts (T.stands_for telling.old) ending reader.old moments.old out.old.items
        (S.left source.old) (S.left source.new) (S.faults source.old) (S.faults source.new) (K.written sink.old) (K.written sink.new) (K.faults sink.old) (K.faults sink.new) }
    ensures reads_on { result ≡ None → S.faults source.new ≡ S.faults source.old }
    ensures reads_steady { (ending : EndingOf) → result ≡ Some ending → IsWhole ending → S.faults source.new ≡ S.faults source.old }
    ensures writes_steady { result ≢ Some Ending.WriteFault → K.faults sink.new ≡ K.faults sink.old }
{
    // So many records are never read: a run over them ends here as one whose memory ran out.
    if reader.records() == u64::MAX {
        return Some(Ending::NoMemory);
    }
    let records = reader.records();
    match reader.next(source) {
        Ok(()) => {}
        Err(end) => return Some(end_run(records, end, sink, telling, out)),
    }
    if tell_packet(reader, moments, telling, out).is_err() {
        return Some(Ending::NoMemory);
    }
    match write_if_long(sink, out) {
        Ok(()) => None,
        Err(Failed) => Some(Ending::WriteFault),
    }
}

/// Reads and tells of the records that are left, up to an ending.
fn run_records<S: Source, K: Sink, T: Telling>(
    source: &mut S,
    sink: &mut K,
    reader: &mut Reader,
    telling: &mut T,
    out: &mut Vec<u8>,
) -> Ending
    requires { reader.old ≡ record { format = fresh; records = 0; packet = None; held = [] } }
    ensures ends { (p : T.Plain) → T.stands_for telling.old p
        → RunEnds (λ xs. out.old.items ++ whole T.texts p xs) (λ xs. out.old.items ++ broken T.texts p xs) (tells T.texts p) result
        (S.left source.old) (S.left source.new) (S.faults source.old) (S.faults source.new)
        (K.written sink.old) (K.written sink.new) (K.faults sink.old) (K.faults sink.new) }
    ensures reads_steady { IsWhole result → S.faults source.new ≡ S.faults source.old }
    ensures writes_steady { result ≢ Ending.WriteFault → K.faults sink.new ≡ K.faults sink.old }
{
    let mut moments = Moments::new();
    'records: loop {
        match run_next(source, sink, reader, &mut moments, telling, out) {
            Some(ending) => return ending,
            None => continue 'records,
        }
    }
}

/// Reads the capture that the source gives, tells of its packets one after the other, and writes their text
/// behind what stands in `out`. The source is read only where no whole record is held, and at most 1,114,112 bytes are
/// taken behind the last record, whatever the end.
///
/// Where a record is refused, the text of the packets before it is written with its end. Where reading fails,
/// it's written without.
pub fn run_capture<S: Source, K: Sink, T: Telling>(
    alloc: Global,
    source: &mut S,
    sink: &mut K,
    telling: &mut T,
    out: &mut Vec<u8>,
) -> Ending
    ensures ends { (p : T.Plain) → T.stands_for telling.old p
        → RunEnds (λ xs. out.old.items ++ whole T.texts p xs) (λ xs. out.old.items ++ broken T.texts p xs) (tells T.texts p) result
        (S.left source.old) (S.left source.new) (S.faults source.old) (S.faults source.new)
        (K.written sink.old) (K.written sink.new) (K.faults sink.old) (K.faults sink.new) }
    // Where the source tells what it holds, its bytes decide, but for faults and want of memory.
    ensures exact { (p : T.Plain) → T.stands_for telling.old p → IfTold (S.left source.old) (λ content. AnswersContent (tells T.texts p) result content) }
    ensures reads_steady { IsWhole result → S.faults source.new ≡ S.faults source.old }
    ensures writes_steady { result ≢ Ending.WriteFault → K.faults sink.new ≡ K.faults sink.old }
{
    match Reader::new(alloc) {
        Ok(mut reader) => run_records(source, sink, &mut reader, telling, out),
        Err(NoMemory) => Ending::NoMemory,
    }
}
