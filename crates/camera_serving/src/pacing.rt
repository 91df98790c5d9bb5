//! Which turn comes next, how long its receive waits, and when standard input is looked at.

ghost use Rattle.std.specs.Prelude.{◌≡◌, ◌&&◌, [], Some, false};
ghost use Rattle.camera_serving.specs.Turns.{period, frame_moment, has_passed, left_by, kind_with, look_moment, LOOK_PERIOD, LooksSo};
ghost use Rattle.camera_serving.specs.Pacing.{IsPace, passed};

use crate::kinds::{Made, TurnKind};
use gev_links::Source;

/// How long no look at standard input comes after another, in milliseconds.
const LOOK_PERIOD: u64 = 100;

/// How many serving turns come at most before a frame turn that is late.
const MOST_SERVING: u64 = 64;

/// The longest wait of a receive, in milliseconds.
const LONGEST_WAIT: u64 = 100;

/// What is known of the turns that were made. Moments are in milliseconds.
#[derive(Clone, Copy)]
pub(crate) struct Pace {
    /// From a frame turn to the next.
    period: u64,
    /// The moment of the last frame turn.
    framed: Option<u64>,
    /// The moment of the last turn.
    latest: u64,
    /// How many serving turns have still to come before the next frame turn.
    left: u64,
    /// When standard input was last looked at, where the turns have looks before them.
    looked: Option<u64>,
}

/// Whether so much time has gone by since then.
fn has_passed(wait: u64, begun: Option<u64>, moment: u64) -> bool
    ensures { result ≡ has_passed wait begun moment }
{
    match begun {
        Some(begun) => moment.saturating_sub(begun) >= wait,
        None => true,
    }
}

/// The moment of the last frame turn behind a turn of this kind.
fn frame_moment(kind: TurnKind, moment: u64, earlier: Option<u64>) -> Option<u64>
    ensures { result ≡ frame_moment kind moment earlier }
{
    match kind {
        TurnKind::Serving => earlier,
        TurnKind::Framing => Some(moment),
    }
}

/// How many serving turns have still to come behind a turn of this kind.
fn left_by(kind: TurnKind, is_quiet: bool, left: u64) -> u64
    ensures { result ≡ left_by kind is_quiet left }
{
    match kind {
        TurnKind::Serving => if is_quiet { 0 } else { left.saturating_sub(1) },
        TurnKind::Framing => MOST_SERVING,
    }
}

/// The moment of the last look behind a turn.
fn look_moment(looked: Option<u64>, latest: u64, moment: u64) -> u64
    ensures { result ≡ look_moment looked latest moment }
{
    match looked {
        Some(looked) => if latest.saturating_sub(looked) >= LOOK_PERIOD {
            latest
        } else {
            looked
        },
        None => moment,
    }
}

impl Pace {
    /// Of so many frame turns a second, none of which was made.
    pub(crate) fn new(rate: u64) -> Pace
        ensures { IsPace rate [] result }
    {
        Pace {
            period: 999 / rate.max(1) + 1,
            framed: None,
            latest: 0,
            left: MOST_SERVING,
            looked: None,
        }
    }

    /// What the next turn does.
    pub(crate) fn next_kind(&self) -> TurnKind
        ensures { result ≡ kind_with self.now.period self.now.framed self.now.latest self.now.left }
    {
        if has_passed(self.period, self.framed, self.latest) && self.left == 0 {
            TurnKind::Framing
        } else {
            TurnKind::Serving
        }
    }

    /// How long the receive of the next turn waits, in milliseconds: until the next frame turn's time has come, but not
    /// where a serving turn that doesn't wait has still to come.
    pub(crate) fn wait(&self) -> u32 {
        if self.left > 0 {
            return 0;
        }
        match self.framed {
            Some(framed) => {
                let gone = self.latest.saturating_sub(framed);
                self.period.saturating_sub(gone).min(LONGEST_WAIT) as u32
            }
            None => 0,
        }
    }

    /// A turn of this kind was made, and told this.
    pub(crate) fn pass(&mut self, kind: TurnKind, made: Made)
        ensures { self.new ≡ passed self.old kind made }
    {
        self.looked = Some(look_moment(self.looked, self.latest, made.moment));
        self.framed = frame_moment(kind, made.moment, self.framed);
        self.left = left_by(kind, made.is_quiet, self.left);
        self.latest = made.moment;
    }

    /// Whether standard input is to be looked at before the next turn.
    fn is_look_due(&self) -> bool
        ensures { result ≡ has_passed LOOK_PERIOD self.now.looked self.now.latest }
    {
        has_passed(LOOK_PERIOD, self.looked, self.latest)
    }
}

/// Whether standard input has ended, where it's looked at and a look is due.
pub(crate) fn has_ended<S: Source>(with_input: bool, source: &mut S, pace: &Pace) -> bool
    ensures looks { LooksSo result (with_input && has_passed LOOK_PERIOD pace.now.looked pace.now.latest) (S.left source.old) (S.left source.new) }
    ensures unread { with_input ≡ false → S.left source.new ≡ S.left source.old }
    ensures faults { S.faults source.new ≡ S.faults source.old }
{
    if !with_input {
        return false;
    }
    if !pace.is_look_due() {
        return false;
    }
    source.has_ended()
}
