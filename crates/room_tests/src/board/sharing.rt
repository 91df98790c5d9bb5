//! A board that is shared by one call, and tokens that cross to other threads.

use board_model::PlainBoard;
use buffer_words::{Board, board_is_shared, tokens_cross};
use gentl_events::share_board;
use gentl_stream::{ds_borrow, ds_buffer_info, ds_info, ds_return};
use gentl_types::State;
use gev_links::MemoryClock;
use std::test::Fail;

// Two threads share a board with one buffer: then the pool is empty, and the buffer waits in the output or
// is the application's again.
#[test]
fn two_threads_share_a_board(rt: HostRuntime) -> Result<(), Fail> {
    let (board, mut pass) = Board::new(rt.alloc())?;
    board_is_shared(&board);
    let mut moments = [0u64; 1000];
    moments[999] = 1;
    let clock = MemoryClock::new(&moments);
    let Ok(id) = share_board(&rt, rt.alloc(), &board, &mut pass, clock, 3, 1) else {
        return Err(Fail::new("nothing announced"));
    };
    pass.witness();
    assert!(rt; id.place == 0 && id.generation == 1);
    assert!(rt; ds_info(&board, &mut pass, 1000) == Ok(0));
    let held = board.load(&mut pass, 0).state == State::Held;
    let waits = ds_buffer_info(&board, &mut pass, id, 1000) == Ok(1);
    assert!(rt; held != waits);
    Ok(())
}

// A board, a pass and a loan may go to another thread.
#[test]
fn tokens_may_cross(rt: HostRuntime) -> Result<(), Fail> {
    let (board, mut pass) = Board::new(rt.alloc())?;
    let Ok(id) = gentl_stream::ds_announce(rt.alloc(), &board, &mut pass, 3) else {
        return Err(Fail::new("not announced"));
    };
    let Ok(loan) = ds_borrow(&board, &mut pass, id) else {
        return Err(Fail::new("not borrowed"));
    };
    tokens_cross(&board, &pass, &loan);
    ds_return(&board, &mut pass, loan);
    Ok(())
}

// An actor of the plain board ends where its hands are empty.
#[test]
fn an_actor_ends(rt: HostRuntime) -> Result<(), Fail> {
    let mut board = PlainBoard::new(rt.alloc())?;
    board.owned();
    assert!(rt; board.is_actor(0) && board.can_split());
    let other = board.split(0);
    assert!(rt; other != 0 && board.is_actor(0) && board.has_empty_hands(other));
    board.join(0, other);
    assert!(rt; !board.is_actor(other) && board.run() == 0);
    Ok(())
}
