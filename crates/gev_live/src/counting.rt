//! What a run lost, in a line for standard error. No clause speaks of its text.

ghost use Rattle.std.specs.Prelude.{◌≡◌};

use acquisition_machine::Counts;
use gev_links::Sink;
use std::alloc::{AllocError, Global};

/// What the receivers and the reader of a live run counted.
#[derive(Clone, Copy)]
pub struct Tally {
    /// What the receiver counted, or all lanes' together.
    pub counts: Counts,
    /// How many heartbeats found that the camera had given control away.
    pub gone: u64,
    /// With lanes, how many datagrams found no free cell of theirs.
    pub shed: Option<u64>,
}

/// The line's marks of a take line whose image is complete.
const COMPLETE: &[u8] = b" complete=1 ";

/// How many of the lines tell of a complete image.
fn complete_in(lines: &[u8]) -> usize {
    lines
        .windows(COMPLETE.len())
        .filter(|part| *part == COMPLETE)
        .count()
}

/// The line.
fn counts_line(
    alloc: Global,
    tally: Tally,
    frames: u32,
    taken: u32,
    complete: usize,
) -> Result<String, AllocError> {
    let Tally { counts, gone, shed } = tally;
    let Counts {
        underrun,
        requests,
        foreign,
        late,
        repeat,
        misfit,
        starved,
        notice,
    } = counts;
    let incomplete = u64::from(taken).saturating_sub(complete as u64);
    let mut line = format!(in alloc;
        "counts frames={frames} taken={taken} complete={complete} incomplete={incomplete} underrun={underrun} requests={requests} foreign={foreign} late={late} repeat={repeat} misfit={misfit} starved={starved} notice={notice} gone={gone}"
    )?;
    if let Some(shed) = shed {
        line.push_str(&format!(in alloc; " shed={shed}")?)?;
    }
    line.push('\n')?;
    Ok(line)
}

/// Tells the counts. Where memory is wanting for the line it's left out.
pub(crate) fn tell_counts<K: Sink>(
    alloc: Global,
    sink: &mut K,
    tally: Tally,
    lines: &[u8],
    frames: u32,
    taken: u32,
)
    ensures written { K.written sink.new ≡ K.written sink.old }
    ensures faults { K.faults sink.new ≡ K.faults sink.old }
{
    let complete = complete_in(lines);
    match counts_line(alloc, tally, frames, taken, complete) {
        Ok(line) => sink.tell(line.as_bytes()),
        Err(_) => {}
    }
}
