//! The loop over the lines.

ghost use Rattle.std.specs.Prelude.{◌≡◌, ◌≢◌, ◌≤◌, ℕ, List, Option, [], None, Some};
ghost use Rattle.gev_links.specs.Told.{Appends};
ghost use Rattle.script_image.specs.declared.wanted.Wanted.{Wanted};
ghost use Rattle.script_image.specs.Taking.{Taking, beginning};
ghost use Rattle.script_image.specs.Ends.{ImageEnds};
ghost use Rattle.script_image.specs.Showing.{IsShowing, IsShowingSome, WaitsSo, Turn, unread_end};

use crate::image_end::ImageEnd;
use crate::showing::{Showing, show_line};
use gev_links::{Sink, Source};
use gev_script::{LineEnd, Lines, ScriptKind};
use gev_types::NoMemory;
use std::alloc::Global;

/// The end of a script whose next line can't be read, after `given` others.
fn unread_end(given: u32, end: LineEnd) -> ImageEnd
    ensures { result ≡ unread_end given end }
{
    let line = u64::from(given) + 1;
    match end {
        LineEnd::Long => ImageEnd::BadLine {
            line,
            kind: ScriptKind::Long,
        },
        LineEnd::NoEnd => ImageEnd::BadLine {
            line,
            kind: ScriptKind::NoEnd,
        },
        LineEnd::Many => ImageEnd::BadLine {
            line,
            kind: ScriptKind::Many,
        },
        LineEnd::ReadFault => ImageEnd::ReadFault,
    }
}

/// Takes one line, runs it and shows what it gets, and answers the end, if the script doesn't go on.
fn run_next<S: Source, K: Sink>(
    alloc: Global,
    source: &mut S,
    sink: &mut K,
    showing: &mut Showing,
    lines: &mut Lines,
    report: &mut Vec<u8>,
) -> Option<ImageEnd>
    requires refusal { lines.old.refusal ≡ None }
    requires stands { IsShowingSome showing.old }
    ensures turn { (w : Wanted) (shown : List ℕ) (s : Taking) (begun : Option (List ℕ)) → IsShowing w shown showing.old s → WaitsSo s.standing
        → Appends begun (K.written sink.old) shown
        → Turn w result shown s showing.new lines.old lines.new (S.left source.old) (S.left source.new) (S.faults source.old) (S.faults source.new)
        begun (K.written sink.old) (K.written sink.new) (K.faults sink.old) (K.faults sink.new) }
    ensures reads_steady { result ≢ Some ImageEnd.ReadFault → S.faults source.new ≡ S.faults source.old }
    ensures writes_steady { result ≢ Some ImageEnd.WriteFault → K.faults sink.new ≡ K.faults sink.old }
{
    let number = match lines.next(source) {
        Ok(number) => number,
        Err(end) => return Some(unread_end(lines.given(), end)),
    };
    report.clear();
    show_line(alloc, showing, number, lines.line(), report, sink)
}

/// Runs the lines that are left, up to an end.
fn run_lines<S: Source, K: Sink>(
    alloc: Global,
    source: &mut S,
    sink: &mut K,
    showing: &mut Showing,
    lines: &mut Lines,
    report: &mut Vec<u8>,
) -> ImageEnd
    requires refusal { lines.old.refusal ≡ None }
    requires given { lines.old.given ≡ 0 }
    requires held { lines.old.held ≡ [] }
    requires stands { IsShowing showing.old.wanted [] showing.old beginning }
    ensures ends { ImageEnds showing.old.wanted result (S.left source.old) (S.left source.new) (S.faults source.old) (S.faults source.new)
        (K.written sink.old) (K.written sink.new) (K.faults sink.old) (K.faults sink.new) }
    ensures reads_steady { result ≢ ImageEnd.ReadFault → S.faults source.new ≡ S.faults source.old }
    ensures writes_steady { result ≢ ImageEnd.WriteFault → K.faults sink.new ≡ K.faults sink.old }
{
    'turns: loop {
        match run_next(alloc, source, sink, showing, lines, report) {
            Some(end) => return end,
            None => continue 'turns,
        }
    }
}

/// Runs the lines that the source gives up to an end, and writes what is shown of them. The source is read only where
/// no whole line is held.
#[tactic(auto, using(crate::proofs::Looping::image_begun))]
pub(crate) fn run_to_end<S: Source, K: Sink>(
    alloc: Global,
    source: &mut S,
    sink: &mut K,
    showing: &mut Showing,
) -> ImageEnd
    requires stands { IsShowing showing.old.wanted [] showing.old beginning }
    ensures ends { ImageEnds showing.old.wanted result (S.left source.old) (S.left source.new) (S.faults source.old) (S.faults source.new)
        (K.written sink.old) (K.written sink.new) (K.faults sink.old) (K.faults sink.new) }
    ensures reads_steady { result ≢ ImageEnd.ReadFault → S.faults source.new ≡ S.faults source.old }
    ensures writes_steady { result ≢ ImageEnd.WriteFault → K.faults sink.new ≡ K.faults sink.old }
{
    match Lines::new(alloc) {
        Ok(mut lines) => {
            let mut report = Vec::new(alloc);
            run_lines(alloc, source, sink, showing, &mut lines, &mut report)
        }
        Err(NoMemory) => ImageEnd::NoMemory,
    }
}
