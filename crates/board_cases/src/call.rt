//! The calls that rows make on a board.

use crate::words::{buffer_id, byte, long, number, word};
use board_calls::Mode;
use gentl_types::BufferId;

/// A call of GenTL on the stream, on a buffer or on the event.
#[derive(Clone, Copy)]
pub enum Call {
    Announce(u64),
    Queue(BufferId),
    Revoke(BufferId),
    /// A borrow, and where it was granted the return.
    Borrow(BufferId),
    Flush(u32),
    Start,
    Stop(u32),
    Info(u32),
    BufferInfo(BufferId, u32),
    Close,
    Event(EventCall),
}

/// A call on the event.
#[derive(Clone, Copy)]
pub enum EventCall {
    /// A wait of no time at the moment 7, and where a buffer was taken its return.
    Get,
    Kill,
    Flush,
}

/// A step that leaves no place in hand.
#[derive(Clone, Copy)]
pub enum Look {
    Load(u8),
    /// A grab, and where it was granted the place goes into the pool.
    PutIn(u8, u32),
    Pool,
    Output,
    /// The mark of a close alone: nothing is taken back.
    Mark,
    Run,
    StartRun,
    StopRun(bool),
    Post,
    Unpost,
}

/// A step that brings a place to hand.
#[derive(Clone, Copy)]
pub enum Step {
    /// A new buffer of this size, in bytes, for a place.
    Enrol(u8, u32),
    Grab(u8, u32),
    Claim,
    ClaimFor(Mode),
    Take,
    SweepPool,
    SweepOut,
}

/// A step on a place in hand.
#[derive(Clone, Copy)]
pub enum Deed {
    Lay,
    Pool,
    Vacate,
    /// A loan, what it tells by this number, and its end.
    Lend(u32),
    /// A fill with the image of a block, whose first byte is its number, in this mode if there is one.
    Fill(Option<Mode>, u8),
}

/// What an actor does in one row.
#[derive(Clone, Copy)]
pub enum Act {
    Call(Call),
    Look(Look),
    Step(Step),
    Deed(u8, Deed),
}

/// The call that has no arguments and this name.
fn bare_call(name: &str) -> Option<Call> {
    match name {
        "start" => Some(Call::Start),
        "close" => Some(Call::Close),
        "get" => Some(Call::Event(EventCall::Get)),
        "kill" => Some(Call::Event(EventCall::Kill)),
        "flush-event" => Some(Call::Event(EventCall::Flush)),
        _ => None,
    }
}

/// The call on the stream with this name and number.
fn stream_call(name: &str, number: u32) -> Option<Call> {
    match name {
        "flush" => Some(Call::Flush(number)),
        "stop" => Some(Call::Stop(number)),
        "info" => Some(Call::Info(number)),
        _ => None,
    }
}

/// The call on a buffer that a row names.
fn buffer_call(words: &[&str]) -> Option<Call> {
    let name = word(words, 0)?;
    let id = buffer_id(words, 1)?;
    match name {
        "queue" => Some(Call::Queue(id)),
        "revoke" => Some(Call::Revoke(id)),
        "borrow" => Some(Call::Borrow(id)),
        "buffer-info" => Some(Call::BufferInfo(id, long(words, 3)?)),
        _ => None,
    }
}

/// The call that a row names by its name and one number.
fn number_call(words: &[&str]) -> Option<Call> {
    let name = word(words, 0)?;
    let number = number(words, 1)?;
    if name == "announce" {
        return Some(Call::Announce(number));
    }
    stream_call(name, u32::try_from(number).ok()?)
}

/// The call of GenTL that a row names.
fn call_of(words: &[&str]) -> Option<Call> {
    if let Some(call) = bare_call(word(words, 0)?) {
        return Some(call);
    }
    if let Some(call) = buffer_call(words) {
        return Some(call);
    }
    number_call(words)
}

/// The mode with this number.
fn mode(words: &[&str], at: usize) -> Option<Mode> {
    match number(words, at)? {
        0 => Some(Mode::OldestFirst),
        1 => Some(Mode::OldestFirstOverwrite),
        2 => Some(Mode::NewestOnly),
        _ => None,
    }
}

/// The step without a place in hand that has no arguments and this name.
fn bare_look(name: &str) -> Option<Look> {
    match name {
        "look-pool" => Some(Look::Pool),
        "look-out" => Some(Look::Output),
        "mark" => Some(Look::Mark),
        "run" => Some(Look::Run),
        "start-run" => Some(Look::StartRun),
        "post" => Some(Look::Post),
        "unpost" => Some(Look::Unpost),
        _ => None,
    }
}

/// The step without a place in hand that a row names.
fn look_of(words: &[&str]) -> Option<Look> {
    let name = word(words, 0)?;
    match name {
        "load" => Some(Look::Load(byte(words, 1)?)),
        "put-in" => Some(Look::PutIn(byte(words, 1)?, long(words, 2)?)),
        "stop-run" => Some(Look::StopRun(number(words, 1)? != 0)),
        _ => bare_look(name),
    }
}

/// The step on a place with this number that a row names.
fn place_step(words: &[&str]) -> Option<Step> {
    let place = byte(words, 1)?;
    let number = long(words, 2)?;
    match word(words, 0)? {
        "enrol" => Some(Step::Enrol(place, number)),
        "grab" => Some(Step::Grab(place, number)),
        _ => None,
    }
}

/// The step that brings a place to hand that a row names.
fn step_of(words: &[&str]) -> Option<Step> {
    match word(words, 0)? {
        "claim" => Some(Step::Claim),
        "claim-for" => Some(Step::ClaimFor(mode(words, 1)?)),
        "take" => Some(Step::Take),
        "sweep-pool" => Some(Step::SweepPool),
        "sweep-out" => Some(Step::SweepOut),
        _ => place_step(words),
    }
}

/// The fill of a place in hand that a row names.
fn fill_of(words: &[&str]) -> Option<Deed> {
    let block = byte(words, 2)?;
    match word(words, 0)? {
        "fill" => Some(Deed::Fill(None, block)),
        "fill-for" => Some(Deed::Fill(Some(mode(words, 3)?), block)),
        _ => None,
    }
}

/// The step on a place in hand that a row names.
fn deed_of(words: &[&str]) -> Option<Deed> {
    match word(words, 0)? {
        "lay" => Some(Deed::Lay),
        "pool" => Some(Deed::Pool),
        "vacate" => Some(Deed::Vacate),
        "lend" => Some(Deed::Lend(long(words, 2)?)),
        _ => fill_of(words),
    }
}

/// What the row of an actor names.
pub fn act_of(words: &[&str]) -> Option<Act> {
    if let Some(call) = call_of(words) {
        return Some(Act::Call(call));
    }
    if let Some(look) = look_of(words) {
        return Some(Act::Look(look));
    }
    if let Some(step) = step_of(words) {
        return Some(Act::Step(step));
    }
    let deed = deed_of(words)?;
    Some(Act::Deed(byte(words, 1)?, deed))
}
