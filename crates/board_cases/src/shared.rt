//! The same acts on the board that threads share, each by a pass.

ghost use Rattle.std.specs.Prelude.{◌≡◌, IfSome};
ghost use Rattle.buffer_words.specs.Boards.{board_id};
ghost use Rattle.buffer_words.specs.Passes.{IsWhole};
ghost use Rattle.board_cases.specs.Ready.{IsReady};

use crate::answer::Answer;
use crate::call::{Act, Call, Deed, EventCall, Look, Step};
use crate::image::write_image;
use crate::words::number;
use buffer_words::{Board, Pass};
use gentl_events::{event_flush, event_get, event_kill};
use gentl_stream::{
    ds_announce, ds_borrow, ds_buffer_info, ds_close, ds_flush, ds_info, ds_queue, ds_return,
    ds_revoke, ds_start, ds_stop,
};
use gentl_types::{BufferId, GcError};
use gev_links::{HoldingGate, MemoryClock};
use gev_types::{Buf, MAX_BUFFER_SIZE, PLACES};
use input_pool::{claim, put_back, queue};
use output_queue::{FillEnd, TakeEnd, close, fill, take};
use shared_modes::{Mode, claim_for, fill_for};
use std::alloc::{AllocError, Global};
use std::sync::Wait;

/// A pass, and the place that it has in hand, if that is known: each further act but one on that place
/// forgets it.
#[derive(Drop)]
pub struct Actor {
    pub pass: Pass,
    pub held: Option<u8>,
}

/// What a step answers, and the place that is in hand after it, if that is known.
type Held = (Answer, Option<u8>);

/// A borrow, and where it was granted the return.
fn borrow(board: &Board, pass: &mut Pass, id: BufferId) -> Answer
    requires table { pass.old.table ≡ board_id board.now }
    ensures table { pass.new.table ≡ pass.old.table }
{
    match ds_borrow(board, pass, id) {
        Ok(loan) => {
            let answer = Answer::loan(loan.id().place, loan.buf());
            ds_return(board, pass, loan);
            answer
        }
        Err(error) => Answer::Refused(error),
    }
}

/// A wait by a clock that tells these moments, and where a buffer was taken its return.
fn wait<R: Wait>(rt: &R, board: &Board, pass: &mut Pass, timeout: u64, moments: &[u64]) -> Answer
    requires table { pass.old.table ≡ board_id board.now }
    ensures table { pass.new.table ≡ pass.old.table }
{
    let mut clock = MemoryClock::new(moments);
    let gate = HoldingGate::new(2, 10);
    match event_get(rt, board, pass, &mut clock, &gate, timeout) {
        Ok(loan) => {
            let answer = Answer::loan(loan.id().place, loan.buf());
            ds_return(board, pass, loan);
            answer
        }
        Err(error) => Answer::Refused(error),
    }
}

/// `wait TIMEOUT MOMENT ..`
pub fn wait_row<R: Wait>(
    rt: &R,
    alloc: Global,
    board: &Board,
    actor: &mut Actor,
    words: &[&str],
) -> Result<Option<Answer>, AllocError>
    requires ready { IsReady (board_id board.now) actor.old.pass actor.old.held }
    ensures ready { IsReady (board_id board.now) actor.new.pass actor.new.held }
{
    let mut moments: Vec<u64> = Vec::new(alloc);
    for at in 2..words.len() {
        moments.push(number(words, at).unwrap_or(0))?;
    }
    let Some(timeout) = number(words, 1) else {
        return Ok(None);
    };
    actor.held = None;
    Ok(Some(wait(rt, board, &mut actor.pass, timeout, &moments)))
}

/// A call on the event.
fn make_event_call<R: Wait>(rt: &R, board: &Board, pass: &mut Pass, call: EventCall) -> Answer
    requires table { pass.old.table ≡ board_id board.now }
    ensures table { pass.new.table ≡ pass.old.table }
{
    match call {
        EventCall::Get => return wait(rt, board, pass, 0, &[7]),
        EventCall::Kill => event_kill(board, pass),
        EventCall::Flush => event_flush(board, pass),
    }
    Answer::Done
}

/// A call of GenTL.
fn make_call<R: Wait>(rt: &R, alloc: Global, board: &Board, pass: &mut Pass, call: Call) -> Answer
    requires table { pass.old.table ≡ board_id board.now }
    ensures table { pass.new.table ≡ pass.old.table }
{
    match call {
        Call::Announce(size) => Answer::announced(ds_announce(alloc, board, pass, size)),
        Call::Queue(id) => Answer::done(ds_queue(board, pass, id)),
        Call::Revoke(id) => Answer::size(ds_revoke(board, pass, id)),
        Call::Borrow(id) => borrow(board, pass, id),
        Call::Flush(operation) => Answer::done(ds_flush(rt, board, pass, operation)),
        Call::Start => Answer::done(ds_start(board, pass)),
        Call::Stop(flags) => Answer::done(ds_stop(board, pass, flags)),
        Call::Info(which) => Answer::value(ds_info(board, pass, which)),
        Call::BufferInfo(id, which) => Answer::value(ds_buffer_info(board, pass, id, which)),
        Call::Close => {
            ds_close(board, pass);
            Answer::Done
        }
        Call::Event(call) => make_event_call(rt, board, pass, call),
    }
}

/// Looks at the word of a place.
fn load(board: &Board, pass: &mut Pass, place: u8) -> Answer
    requires table { pass.old.table ≡ board_id board.now }
    ensures table { pass.new.table ≡ pass.old.table }
{
    if place >= PLACES {
        return Answer::NoPlace;
    }
    Answer::Found(board.load(pass, place))
}

/// Puts a buffer that the application has into the pool.
fn put_in(board: &Board, pass: &mut Pass, place: u8, generation: u32) -> Answer
    requires table { pass.old.table ≡ board_id board.now }
    ensures table { pass.new.table ≡ pass.old.table }
{
    if place >= PLACES {
        return Answer::NoPlace;
    }
    match queue(board, pass, place, generation) {
        Ok(()) => Answer::Done,
        Err(word) => Answer::Found(word),
    }
}

/// A step that leaves no place in hand.
fn make_look(board: &Board, pass: &mut Pass, look: Look) -> Answer
    requires table { pass.old.table ≡ board_id board.now }
    ensures table { pass.new.table ≡ pass.old.table }
{
    match look {
        Look::Load(place) => load(board, pass, place),
        Look::PutIn(place, generation) => put_in(board, pass, place, generation),
        Look::Pool => Answer::Places(board.look_pool(pass)),
        Look::Output => Answer::output(board.look_out(pass)),
        Look::Mark => {
            close(board, pass);
            Answer::Done
        }
        Look::Run => Answer::Run(board.look_run(pass)),
        Look::StartRun => Answer::run(board.start(pass)),
        Look::StopRun(kill) => Answer::run(board.stop(pass, kill)),
        Look::Post => {
            board.post(pass);
            Answer::Done
        }
        Look::Unpost => Answer::Value(u64::from(board.unpost(pass))),
    }
}

/// Brings a new buffer to a place.
fn enrol(alloc: Global, board: &Board, pass: &mut Pass, place: u8, size: u32) -> Held
    requires table { pass.old.table ≡ board_id board.now }
    ensures table { pass.new.table ≡ pass.old.table }
    ensures holds { IfSome result.1 (λ place. IsWhole pass.new place) }
{
    if place >= PLACES || size == 0 || size > MAX_BUFFER_SIZE {
        return (Answer::NoPlace, None);
    }
    let Ok(buf) = Buf::new(alloc, size) else {
        return (Answer::Refused(GcError::OutOfMemory), None);
    };
    match board.enrol(pass, place, buf) {
        Ok(generation) => (Answer::Value(u64::from(generation)), Some(place)),
        Err((_back, word)) => (Answer::Found(word), None),
    }
}

/// Takes a buffer in hand that the application has.
fn grab(board: &Board, pass: &mut Pass, place: u8, generation: u32) -> Held
    requires table { pass.old.table ≡ board_id board.now }
    ensures table { pass.new.table ≡ pass.old.table }
    ensures holds { IfSome result.1 (λ place. IsWhole pass.new place) }
{
    if place >= PLACES {
        return (Answer::NoPlace, None);
    }
    match board.grab(pass, place, generation) {
        Ok(()) => (Answer::Done, Some(place)),
        Err(word) => (Answer::Found(word), None),
    }
}

/// Takes the first buffer of the output.
fn take_first<R: Wait>(rt: &R, board: &Board, pass: &mut Pass) -> Held
    requires table { pass.old.table ≡ board_id board.now }
    ensures table { pass.new.table ≡ pass.old.table }
    ensures holds { IfSome result.1 (λ place. IsWhole pass.new place) }
{
    match take(rt, board, pass) {
        TakeEnd::Taken(place) => (Answer::Place(place), Some(place)),
        TakeEnd::Empty => (Answer::Empty, None),
        TakeEnd::Closed => (Answer::Closed, None),
    }
}

/// Claims a place for the next block in a mode.
fn claim_in_mode<R: Wait>(rt: &R, board: &Board, pass: &mut Pass, mode: Mode) -> Held
    requires table { pass.old.table ≡ board_id board.now }
    ensures table { pass.new.table ≡ pass.old.table }
    ensures holds { IfSome result.1 (λ place. IsWhole pass.new place) }
{
    match claim_for(rt, board, pass, mode) {
        Some((place, dropped)) => (Answer::Claimed(place, dropped), Some(place)),
        None => (Answer::None, None),
    }
}

/// A step that brings a place to hand. Of several places that are swept none is remembered.
fn make_step<R: Wait>(rt: &R, alloc: Global, board: &Board, pass: &mut Pass, step: Step) -> Held
    requires table { pass.old.table ≡ board_id board.now }
    ensures table { pass.new.table ≡ pass.old.table }
    ensures holds { IfSome result.1 (λ place. IsWhole pass.new place) }
{
    match step {
        Step::Enrol(place, size) => enrol(alloc, board, pass, place, size),
        Step::Grab(place, generation) => grab(board, pass, place, generation),
        Step::Claim => {
            let place = claim(rt, board, pass);
            (Answer::place(place), place)
        }
        Step::ClaimFor(mode) => claim_in_mode(rt, board, pass, mode),
        Step::Take => take_first(rt, board, pass),
        Step::SweepPool => (Answer::Places(input_pool::sweep(board, pass)), None),
        Step::SweepOut => (Answer::Places(output_queue::sweep(board, pass)), None),
    }
}

/// Lends a buffer in hand and takes it back: what the loan tells by this number.
fn lend(board: &Board, pass: &mut Pass, place: u8, which: u32) -> Held
    requires table { pass.old.table ≡ board_id board.now }
    requires holds { IsWhole pass.old place }
    ensures table { pass.new.table ≡ pass.old.table }
    ensures holds { IfSome result.1 (λ place. IsWhole pass.new place) }
{
    let loan = board.lend(pass, place);
    let answer = Answer::value(loan.info(which));
    let held = loan.id().place;
    board.spend(pass, loan);
    (answer, Some(held))
}

/// Fills a place in hand with the image of a block.
fn fill_place<R: Wait>(rt: &R, board: &Board, pass: &mut Pass, place: u8, block: u8) -> Held
    requires table { pass.old.table ≡ board_id board.now }
    requires holds { IsWhole pass.old place }
    ensures table { pass.new.table ≡ pass.old.table }
    ensures holds { IfSome result.1 (λ place. IsWhole pass.new place) }
{
    let mut buf = board.lift(pass, place);
    write_image(&mut buf, block);
    match fill(rt, board, pass, place, buf) {
        FillEnd::Filled => (Answer::Filled(0), None),
        FillEnd::Closed(back) => {
            board.set_down(pass, place, back);
            (Answer::Closed, Some(place))
        }
    }
}

/// The same in a mode.
fn fill_in_mode<R: Wait>(
    rt: &R,
    board: &Board,
    pass: &mut Pass,
    mode: Mode,
    place: u8,
    block: u8,
) -> Held
    requires table { pass.old.table ≡ board_id board.now }
    requires holds { IsWhole pass.old place }
    ensures table { pass.new.table ≡ pass.old.table }
    ensures holds { IfSome result.1 (λ place. IsWhole pass.new place) }
{
    let mut buf = board.lift(pass, place);
    write_image(&mut buf, block);
    let (end, dropped) = fill_for(rt, board, pass, mode, place, buf);
    match end {
        FillEnd::Filled => (Answer::Filled(dropped), None),
        FillEnd::Closed(back) => {
            board.set_down(pass, place, back);
            (Answer::Closed, Some(place))
        }
    }
}

/// A step on a place in hand.
fn make_deed<R: Wait>(rt: &R, board: &Board, pass: &mut Pass, place: u8, deed: Deed) -> Held
    requires table { pass.old.table ≡ board_id board.now }
    requires holds { IsWhole pass.old place }
    ensures table { pass.new.table ≡ pass.old.table }
    ensures holds { IfSome result.1 (λ place. IsWhole pass.new place) }
{
    match deed {
        Deed::Lay => {
            board.lay(pass, place);
            (Answer::Done, None)
        }
        Deed::Pool => {
            put_back(board, pass, place);
            (Answer::Done, None)
        }
        Deed::Vacate => (Answer::size(Ok(board.vacate(pass, place))), None),
        Deed::Lend(which) => lend(board, pass, place, which),
        Deed::Fill(None, block) => fill_place(rt, board, pass, place, block),
        Deed::Fill(Some(mode), block) => fill_in_mode(rt, board, pass, mode, place, block),
    }
}

/// A step on the place that an actor has in hand.
fn deed_in_hand<R: Wait>(
    rt: &R,
    board: &Board,
    pass: &mut Pass,
    held: Option<u8>,
    place: u8,
    deed: Deed,
) -> Held
    requires ready { IsReady (board_id board.now) pass.old held }
    ensures ready { IsReady (board_id board.now) pass.new result.1 }
{
    match held {
        Some(held) => {
            if held == place {
                return make_deed(rt, board, pass, held, deed);
            }
            (Answer::NotInHand, Some(held))
        }
        None => (Answer::NotInHand, None),
    }
}

/// What an actor does in one row.
pub fn act<R: Wait>(rt: &R, alloc: Global, board: &Board, actor: &mut Actor, act: Act) -> Answer
    requires ready { IsReady (board_id board.now) actor.old.pass actor.old.held }
    ensures ready { IsReady (board_id board.now) actor.new.pass actor.new.held }
{
    let (answer, held) = match act {
        Act::Call(call) => (make_call(rt, alloc, board, &mut actor.pass, call), None),
        Act::Look(look) => (make_look(board, &mut actor.pass, look), None),
        Act::Step(step) => make_step(rt, alloc, board, &mut actor.pass, step),
        Act::Deed(place, deed) => {
            deed_in_hand(rt, board, &mut actor.pass, actor.held, place, deed)
        }
    };
    actor.held = held;
    answer
}
