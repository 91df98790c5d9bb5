//! Lines that tell how a run goes.

ghost use Rattle.std.specs.Prelude.{◌≡◌};

use gev_links::Sink;
use std::alloc::{AllocError, Global};

/// How many milliseconds a tenth of a second has.
const TENTH: u64 = 100;

/// How many milliseconds ten seconds have: a number of frames by as many of them is a tenth of a frame a second.
const TEN_SECONDS: u64 = 10_000;

/// How many bytes a millisecond a tenth of a million bytes a second is.
const TENTH_OF_A_MEGABYTE: u64 = 100;

/// Lines on standard error that tell how a run goes, one each so many milliseconds, of the buffers that were handed out
/// since the one before.
#[derive(Drop)]
pub struct Progress {
    every: u32,
    since: Option<u64>,
    counted: Counted,
}

/// What was handed out since the last line.
#[derive(Clone, Copy)]
struct Counted {
    frames: u64,
    incomplete: u64,
    bytes: u64,
}

impl Counted {
    const fn new() -> Counted {
        Counted {
            frames: 0,
            incomplete: 0,
            bytes: 0,
        }
    }
}

/// The quotient that is nearest; 0 where there is none.
fn rounded(number: u64, divisor: u64) -> u64 {
    let more = number.saturating_add(divisor / 2);
    more.checked_div(divisor).unwrap_or(0)
}

/// The line of so many milliseconds.
fn progress_line(alloc: Global, elapsed: u64, counted: Counted) -> Result<String, AllocError> {
    let Counted {
        frames,
        incomplete,
        bytes,
    } = counted;
    let time = rounded(elapsed, TENTH);
    let rate = rounded(frames.saturating_mul(TEN_SECONDS), elapsed);
    let megabytes = rounded(bytes, elapsed.saturating_mul(TENTH_OF_A_MEGABYTE));
    format!(in alloc;
        "gevacq: {}.{} s, {frames} frames, {}.{}/s, {}.{} MB/s, {incomplete} incomplete\n",
        time / 10,
        time % 10,
        rate / 10,
        rate % 10,
        megabytes / 10,
        megabytes % 10
    )
}

impl Progress {
    /// A line each so many milliseconds, from the first moment on that is told; none where that is 0.
    pub const fn each(millis: u32) -> Progress {
        Progress {
            every: millis,
            since: None,
            counted: Counted::new(),
        }
    }

    /// Whether there are lines.
    pub(crate) fn is_on(&self) -> bool {
        self.every > 0
    }

    /// A buffer was handed out, with an image of so many bytes.
    pub(crate) fn count(&mut self, complete: bool, bytes: u32) {
        let counted = &mut self.counted;
        counted.frames = counted.frames.saturating_add(1);
        counted.bytes = counted.bytes.saturating_add(u64::from(bytes));
        if !complete {
            counted.incomplete = counted.incomplete.saturating_add(1);
        }
    }

    /// It's this moment, in milliseconds: tells the line, where one is due. Where memory is wanting for it, it's left
    /// out.
    pub(crate) fn tell<K: Sink>(&mut self, alloc: Global, now: u64, sink: &mut K)
        ensures written { K.written sink.new ≡ K.written sink.old }
        ensures faults { K.faults sink.new ≡ K.faults sink.old }
    {
        let elapsed = now.saturating_sub(self.since.unwrap_or(now));
        if self.since.is_some() && elapsed < u64::from(self.every) {
            return;
        }
        if self.since.is_some() {
            match progress_line(alloc, elapsed, self.counted) {
                Ok(line) => sink.tell(line.as_bytes()),
                Err(_) => {}
            }
            self.counted = Counted::new();
        }
        self.since = Some(now);
    }
}
