//! One step of the board by one of the actors of `step` lines. Each function answers what its line tells.

ghost use Rattle.std.specs.Prelude.{◌≡◌, ◌≤◌, ◌<◌, true, codes};
ghost use Rattle.gev_types.specs.Limits.{place_count};
ghost use Rattle.gev_script.specs.declared.act.Act.TheVariants as act;
ghost use Rattle.board_machine.specs.declared.events.Event.TheVariants as event;
ghost use Rattle.board_machine.specs.Machine.{InHand};
ghost use Rattle.script_trace.specs.StepLines.{GrabStep, StepInHand, FillStep, ClaimStep, TakeStep, SweepPoolStep, SweepOutStep, StepBy, is_in_hand, found_text};
ghost use Rattle.script_trace.specs.Trace.{board as now};
ghost use Rattle.script_replay.specs.Boards.{IsReady};
ghost use Rattle.script_replay.specs.Acquiring.{StepsBoard};

use board_model::{FillEnd, PlainBoard, TakeEnd};
use gentl_types::State;
use gev_report::StepText;
use gev_types::Record;

/// What was found where a grab was refused.
fn found_text(state: State) -> StepText
    ensures { result ≡ found_text state }
{
    match state {
        State::Vacant => StepText::Vacant,
        State::Held => StepText::Done,
        State::Away => StepText::Away,
    }
}

/// Takes a held buffer in hand, by the word of its place.
pub(crate) fn grab(board: &mut PlainBoard, actor: u8, place: u8) -> StepText
    requires ready { IsReady board.old }
    requires actor { actor ≤ 4 }
    requires in_range { place < place_count }
    ensures { StepsBoard (λ t. GrabStep t actor place) actor 0 act.Grab result board.old board.new }
{
    let generation = board.word(place).generation;
    match board.grab(actor, place, generation) {
        Ok(()) => StepText::Done,
        Err(found) => found_text(found.state),
    }
}

/// Gives a buffer in hand to the application.
pub(crate) fn lay(board: &mut PlainBoard, actor: u8, place: u8) -> StepText
    requires ready { IsReady board.old }
    requires actor { actor ≤ 4 }
    ensures { StepsBoard (λ t. StepInHand t actor (event.Lay place) (codes "lay") (is_in_hand (now t) actor place)) actor 0 act.Lay result board.old board.new }
{
    if board.holds(actor, place) {
        board.lay(actor, place);
        StepText::Done
    } else {
        StepText::NotHeld
    }
}

/// Puts a buffer in hand into the pool.
pub(crate) fn pool(board: &mut PlainBoard, actor: u8, place: u8) -> StepText
    requires ready { IsReady board.old }
    requires actor { actor ≤ 4 }
    ensures { StepsBoard (λ t. StepInHand t actor (event.Pool place) (codes "pool") (is_in_hand (now t) actor place)) actor 0 act.Pool result board.old board.new }
{
    if board.holds(actor, place) {
        board.pool(actor, place);
        StepText::Done
    } else {
        StepText::NotHeld
    }
}

/// Takes the pool's lowest place in hand.
pub(crate) fn claim(board: &mut PlainBoard, actor: u8) -> StepText
    requires ready { IsReady board.old }
    requires actor { actor ≤ 4 }
    ensures { StepsBoard (λ t. ClaimStep t actor) actor 0 act.Claim result board.old board.new }
{
    match board.claim(actor) {
        Some(place) => StepText::Number(u32::from(place)),
        None => StepText::None,
    }
}

/// Takes all of the pool in hand.
pub(crate) fn sweep_pool(board: &mut PlainBoard, actor: u8) -> StepText
    requires ready { IsReady board.old }
    requires actor { actor ≤ 4 }
    ensures { StepsBoard (λ t. SweepPoolStep t actor) actor 0 act.SweepPool result board.old board.new }
{
    StepText::Number(board.sweep_pool(actor).len() as u32)
}

/// Takes all of the output in hand.
pub(crate) fn sweep_out(board: &mut PlainBoard, actor: u8) -> StepText
    requires ready { IsReady board.old }
    requires actor { actor ≤ 4 }
    ensures { StepsBoard (λ t. SweepOutStep t actor) actor 0 act.SweepOut result board.old board.new }
{
    StepText::Number(board.sweep_out(actor).len() as u32)
}

/// Sets the close mark.
pub(crate) fn close(board: &mut PlainBoard, actor: u8) -> StepText
    requires ready { IsReady board.old }
    requires actor { actor ≤ 4 }
    ensures { StepsBoard (λ t. StepBy t actor act.Close 0) actor 0 act.Close result board.old board.new }
{
    board.close(actor);
    StepText::Done
}

/// Fills a buffer in hand with its bytes and the empty record. Where the stream is closed its place stays
/// in hand.
pub(crate) fn fill(board: &mut PlainBoard, actor: u8, place: u8) -> StepText
    requires ready { IsReady board.old }
    requires actor { actor ≤ 4 }
    ensures { StepsBoard (λ t. FillStep t actor place (is_in_hand (now t) actor place)) actor 0 act.Fill result board.old board.new }
{
    if board.holds(actor, place) {
        fill_in_hand(board, actor, place)
    } else {
        StepText::NotHeld
    }
}

/// The same of a place in hand.
fn fill_in_hand(board: &mut PlainBoard, actor: u8, place: u8) -> StepText
    requires ready { IsReady board.old }
    requires actor { actor ≤ 4 }
    requires in_hand { InHand board.old.board actor place }
    ensures { StepsBoard (λ t. FillStep t actor place true) actor 0 act.Fill result board.old board.new }
{
    let mut buf = board.lift(actor, place);
    buf.set_rec(Record::default());
    match board.fill(actor, place, buf) {
        FillEnd::Filled => StepText::Done,
        FillEnd::Closed(back) => {
            board.set_down(actor, place, back);
            StepText::Closed
        }
    }
}

/// Takes the oldest buffer of the output in hand. The answer is also how many were taken: 1 or 0.
pub(crate) fn take(board: &mut PlainBoard, actor: u8) -> (StepText, u64)
    requires ready { IsReady board.old }
    requires actor { actor ≤ 4 }
    ensures { StepsBoard (λ t. TakeStep t actor) actor result.1 act.Take result.0 board.old board.new }
{
    match board.take(actor) {
        TakeEnd::Taken(place) => (StepText::Number(u32::from(place)), 1),
        TakeEnd::Empty => (StepText::None, 0),
        TakeEnd::Closed => (StepText::Closed, 0),
    }
}
