//! The answer of a live run, and its lines.

ghost use Rattle.std.specs.Prelude.{◌≡◌, ◌++◌};
ghost use Rattle.gev_report.specs.LiveLine.{live_line};
ghost use Rattle.gev_live.specs.Told.{told_back};
ghost use Rattle.gev_live.specs.Endings.{taken_of, status_by, IsAnswer, EndsSo};

use crate::counting::{Tally, tell_counts};
use crate::ends::Ends;
use crate::numbers::Numbers;
use crate::{status_by, taken_of, write_told};
use gev_acq::{Acquired, Host, Turn};
use gev_apply::ApplicationDone;
use gev_links::{Clock, Link, Sink};
use gev_serve::CameraDone;
use gev_status::Status;
use std::alloc::Global;

// Tells what was counted, and writes the lines and the last one, where the workers' answer wants that.
fn finish<K: Sink>(
    alloc: Global,
    sink: &mut K,
    first: Status,
    lines: Vec<u8>,
    frames: u32,
    taken: u32,
    tally: Tally,
) -> Status
    requires an_answer { IsAnswer first }
    ensures ends { EndsSo first result (lines.items ++ live_line frames taken) (K.written sink.old) (K.written sink.new) (K.faults sink.old) (K.faults sink.new) }
{
    tell_counts(alloc, sink, tally, &lines, frames, taken);
    write_told(alloc, sink, first, lines, frames, taken)
}

/// The answer of a run whose workers gave this back, after what was counted was told, and the lines were written where
/// the answer wants that; with the links and clocks, and the reader's journal.
pub(crate) fn end_run<L: Link, S: Link, C: Clock, K: Sink>(
    alloc: Global,
    sink: &mut K,
    numbers: Numbers,
    done: (CameraDone<L, C>, Acquired<S, L, C>, ApplicationDone<C>),
) -> (Status, Ends<L, S, C>, Vec<Turn>)
    ensures ends { EndsSo (status_by done.0.end done.1.end numbers.frames numbers.turns done.2.answer) result.0 (done.2.lines.items ++ live_line numbers.frames (taken_of done.2.answer))
        (K.written sink.old) (K.written sink.new) (K.faults sink.old) (K.faults sink.new) }
    ensures back { result.1.told ≡ told_back L.received L.sent L.faults S.received S.sent S.faults C.told done.0 done.1 done.2 }
    ensures journal { result.2.items ≡ done.1.journal.items }
{
    let (watched, acquired, applied) = done;
    let CameraDone {
        link: camera,
        clock: camera_clock,
        end: served,
    } = watched;
    let Acquired {
        host,
        journal,
        counts,
        shed,
        end: read,
    } = acquired;
    let Host {
        stream,
        control,
        clock: host_clock,
        client,
    } = host;
    let ApplicationDone {
        clock: app_clock,
        lines,
        answer,
    } = applied;
    let first = status_by(served, read, numbers.frames, numbers.turns, &answer);
    let taken = taken_of(&answer);
    let tally = Tally {
        counts,
        gone: client.gone(),
        shed,
    };
    let status = finish(alloc, sink, first, lines, numbers.frames, taken, tally);
    let ends = Ends {
        camera,
        stream,
        control,
        camera_clock,
        host_clock,
        app_clock,
    };
    (status, ends, journal)
}
