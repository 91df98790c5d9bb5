//! The calls on the plain board, each by one of its actors.

use crate::answer::Answer;
use crate::call::{Act, Call, Deed, EventCall, Look, Step};
use crate::image::write_image;
use arrayvec::ArrayVec;
use board_calls::loan_info;
use board_model::{FillEnd, Mode, PlainBoard, TakeEnd, plain_claim_for, plain_fill_for};
use gentl_types::{BufferId, GcError};
use gev_types::{Buf, MAX_BUFFER_SIZE, NoMemory, PLACES};
use std::alloc::Global;

/// A new board with the actors 0 to 3.
pub fn new_board(alloc: Global) -> Result<PlainBoard, NoMemory> {
    let mut board = PlainBoard::new(alloc)?;
    for _ in 0..3 {
        if board.is_actor(0) && board.can_split() {
            board.split(0);
        }
    }
    Ok(board)
}

/// Returns a buffer in hand: what is told of it.
fn give_back(board: &mut PlainBoard, actor: u8, place: u8) -> Answer {
    if !board.is_actor(actor) || !board.holds(actor, place) || !board.has_buf(place) {
        return Answer::NotInHand;
    }
    let answer = Answer::loan(place, board.buf(place));
    board.ds_return(actor, place);
    answer
}

/// What came is returned.
fn lent(board: &mut PlainBoard, actor: u8, came: Result<u8, GcError>) -> Answer {
    match came {
        Ok(place) => give_back(board, actor, place),
        Err(error) => Answer::Refused(error),
    }
}

/// A borrow, and where it was granted the return.
fn borrow(board: &mut PlainBoard, actor: u8, id: BufferId) -> Answer {
    if !board.is_actor(actor) {
        return Answer::NotInHand;
    }
    let came = board.ds_borrow(actor, id);
    lent(board, actor, came)
}

/// A call on the event.
fn make_event_call(board: &mut PlainBoard, actor: u8, call: EventCall) -> Answer {
    if !board.is_actor(actor) {
        return Answer::NotInHand;
    }
    match call {
        EventCall::Get => {
            let came = board.event_get(actor, 7);
            return lent(board, actor, came);
        }
        EventCall::Kill => board.event_kill(actor),
        EventCall::Flush => board.event_flush(actor),
    }
    Answer::Done
}

/// A call of GenTL.
fn make_call(alloc: Global, board: &mut PlainBoard, actor: u8, call: Call) -> Answer {
    if !board.is_actor(actor) {
        return Answer::NotInHand;
    }
    match call {
        Call::Announce(size) => Answer::announced(board.ds_announce(alloc, actor, size)),
        Call::Queue(id) => Answer::done(board.ds_queue(actor, id)),
        Call::Revoke(id) => Answer::size(board.ds_revoke(actor, id)),
        Call::Borrow(id) => borrow(board, actor, id),
        Call::Flush(operation) => Answer::done(board.ds_flush(actor, operation)),
        Call::Start => Answer::done(board.ds_start(actor)),
        Call::Stop(flags) => Answer::done(board.ds_stop(actor, flags)),
        Call::Info(which) => Answer::value(board.ds_info(actor, which)),
        Call::BufferInfo(id, which) => Answer::value(board.ds_buffer_info(actor, id, which)),
        Call::Close => {
            board.ds_close(actor);
            Answer::Done
        }
        Call::Event(call) => make_event_call(board, actor, call),
    }
}

/// Brings a new buffer to a place.
fn enrol(alloc: Global, board: &mut PlainBoard, actor: u8, place: u8, size: u32) -> Answer {
    if place >= PLACES || size == 0 || size > MAX_BUFFER_SIZE || !board.is_actor(actor) {
        return Answer::NoPlace;
    }
    let Ok(buf) = Buf::new(alloc, size) else {
        return Answer::Refused(GcError::OutOfMemory);
    };
    match board.enrol(actor, place, buf) {
        Ok(generation) => Answer::Value(u64::from(generation)),
        Err((_back, word)) => Answer::Found(word),
    }
}

/// Grabs a buffer and puts it into the pool.
fn put_in(board: &mut PlainBoard, actor: u8, place: u8, generation: u32) -> Answer {
    if place >= PLACES || !board.is_actor(actor) {
        return Answer::NoPlace;
    }
    match board.grab(actor, place, generation) {
        Ok(()) => make_deed(board, actor, place, Deed::Pool),
        Err(word) => Answer::Found(word),
    }
}

/// Looks at the word of a place.
fn load(board: &mut PlainBoard, actor: u8, place: u8) -> Answer {
    if place >= PLACES || !board.is_actor(actor) {
        return Answer::NoPlace;
    }
    Answer::Found(board.load(actor, place))
}

/// Takes a buffer in hand that the application has.
fn grab(board: &mut PlainBoard, actor: u8, place: u8, generation: u32) -> Answer {
    if place >= PLACES || !board.is_actor(actor) {
        return Answer::NoPlace;
    }
    Answer::found(board.grab(actor, place, generation))
}

/// A step that leaves no place in hand.
fn make_look(board: &mut PlainBoard, actor: u8, look: Look) -> Answer {
    if !board.is_actor(actor) {
        return Answer::NotInHand;
    }
    match look {
        Look::Load(place) => load(board, actor, place),
        Look::PutIn(place, generation) => put_in(board, actor, place, generation),
        Look::Pool => Answer::Places(board.look_pool(actor)),
        Look::Output => Answer::output(board.look_out(actor)),
        Look::Mark => {
            board.close(actor);
            Answer::Done
        }
        Look::Run => Answer::Run(board.look_run(actor)),
        Look::StartRun => Answer::run(board.start(actor)),
        Look::StopRun(kill) => Answer::run(board.stop(actor, kill)),
        Look::Post => {
            board.post(actor);
            Answer::Done
        }
        Look::Unpost => Answer::Value(u64::from(board.unpost(actor))),
    }
}

/// A step that brings a place to hand.
fn make_step(alloc: Global, board: &mut PlainBoard, actor: u8, step: Step) -> Answer {
    if !board.is_actor(actor) {
        return Answer::NotInHand;
    }
    match step {
        Step::Enrol(place, size) => enrol(alloc, board, actor, place, size),
        Step::Grab(place, generation) => grab(board, actor, place, generation),
        Step::Claim => Answer::place(board.claim(actor)),
        Step::ClaimFor(mode) => match plain_claim_for(board, actor, mode) {
            Some((place, dropped)) => Answer::Claimed(place, dropped),
            None => Answer::None,
        },
        Step::Take => match board.take(actor) {
            TakeEnd::Taken(place) => Answer::Place(place),
            TakeEnd::Empty => Answer::Empty,
            TakeEnd::Closed => Answer::Closed,
        },
        Step::SweepPool => Answer::Places(board.sweep_pool(actor)),
        Step::SweepOut => Answer::Places(board.sweep_out(actor)),
    }
}

/// Fills a lifted place, in its mode if there is one.
fn put_last(
    board: &mut PlainBoard,
    actor: u8,
    place: u8,
    mode: Option<Mode>,
    buf: Buf,
) -> (FillEnd, u8) {
    if place >= PLACES
        || !board.is_actor(actor)
        || !board.holds(actor, place)
        || board.has_buf(place)
        || buf.bytes().len() != board.word(place).size as usize
    {
        return (FillEnd::Closed(buf), 0);
    }
    match mode {
        Some(mode) => {
            let mut gone = ArrayVec::new();
            plain_fill_for(board, actor, mode, place, buf, &mut gone)
        }
        None => (board.fill(actor, place, buf), 0),
    }
}

/// Sets a buffer down that came back.
fn set_down(board: &mut PlainBoard, actor: u8, place: u8, buf: Buf) -> Answer {
    if place >= PLACES
        || !board.is_actor(actor)
        || !board.holds(actor, place)
        || board.has_buf(place)
        || buf.bytes().len() != board.word(place).size as usize
    {
        return Answer::NotInHand;
    }
    board.set_down(actor, place, buf);
    Answer::Closed
}

/// A step on a place in hand.
fn make_deed(board: &mut PlainBoard, actor: u8, place: u8, deed: Deed) -> Answer {
    if !board.is_actor(actor) || !board.holds(actor, place) || !board.has_buf(place) {
        return Answer::NotInHand;
    }
    match deed {
        Deed::Lay => {
            board.lay(actor, place);
            Answer::Done
        }
        Deed::Pool => {
            board.pool(actor, place);
            Answer::Done
        }
        Deed::Vacate => Answer::size(Ok(board.vacate(actor, place))),
        Deed::Lend(which) => Answer::value(loan_info(board.buf(place).rec(), which)),
        Deed::Fill(mode, block) => {
            let mut buf = board.lift(actor, place);
            write_image(&mut buf, block);
            match put_last(board, actor, place, mode, buf) {
                (FillEnd::Filled, dropped) => Answer::Filled(dropped),
                (FillEnd::Closed(back), _) => set_down(board, actor, place, back),
            }
        }
    }
}

/// What an actor does in one row.
pub fn act(alloc: Global, board: &mut PlainBoard, actor: u8, act: Act) -> Answer {
    match act {
        Act::Call(call) => make_call(alloc, board, actor, call),
        Act::Look(look) => make_look(board, actor, look),
        Act::Step(step) => make_step(alloc, board, actor, step),
        Act::Deed(place, deed) => make_deed(board, actor, place, deed),
    }
}
