//! A queue between two threads, and on one.

ghost use Rattle.std.specs.Prelude.{◌≡◌};

use gev_lanes::{Giver, Line, Start, Taker, ends_cross, line_is_shared};
use std::alloc::{AllocError, Global};
use std::sync::Wait;
use std::test::Fail;
use std::thread;

// How many items go from one thread to the other.
const COUNT: u32 = 10_000;

// Gives all numbers from 0 on, each again while the queue is full.
fn give_all<R: Wait>(rt: &R, line: &Line<u32>, mut giver: Giver<u32>) -> Giver<u32>
    requires { giver.line ≡ line.now.table }
    ensures { result.line ≡ line.now.table }
{
    let mut next = 0;
    'items: for _ in rt.forever() {
        if next >= COUNT {
            break;
        }
        match line.give(rt, &mut giver, next) {
            Ok(()) => next += 1,
            Err(_) => thread::yield_now(),
        }
    }
    giver
}

// Takes as many, and counts those that don't come in their order.
fn take_all<R: Wait>(rt: &R, line: &Line<u32>, mut taker: Taker<u32>) -> (Taker<u32>, u32)
    requires { taker.line ≡ line.now.table }
    ensures { result.0.line ≡ line.now.table }
{
    let mut next = 0;
    let mut wrong: u32 = 0;
    'items: for _ in rt.forever() {
        if next >= COUNT {
            break;
        }
        match line.take(rt, &mut taker) {
            Some(item) => {
                if item != next {
                    wrong = wrong.saturating_add(1);
                }
                next += 1;
            }
            None => thread::yield_now(),
        }
    }
    (taker, wrong)
}

#[test]
fn ten_thousand_items_cross(rt: HostRuntime) -> Result<(), Fail> {
    let (queue, start) = Line::new(rt.alloc(), 64)?;
    let line = &queue;
    let (giver, taker) = line.part(start);
    line_is_shared(line);
    let (mut giver, (taker, wrong)) = thread::join(
        &rt,
        move ||
            requires { giver.line ≡ line.now.table }
            ensures { result.line ≡ line.entry.now.table }
        { give_all(&rt, line, giver) },
        move ||
            requires { taker.line ≡ line.now.table }
            ensures { result.0.line ≡ line.entry.now.table }
        { take_all(&rt, line, taker) },
    );
    line.meet_taker(&mut giver, taker);
    assert!(rt; wrong == 0);
    Ok(())
}

/// Does nothing but make a queue: these ends may go to another thread.
fn ends_may_cross(alloc: Global, begin: &Start<u32>) -> Result<(), AllocError> {
    let (line, start) = Line::<u32>::new(alloc, 1)?;
    let (giver, taker) = line.part(start);
    ends_cross(begin, &giver, &taker);
    Ok(())
}

/// The same of all ends, and of the queue itself.
fn queues_may_cross(alloc: Global) -> Result<(), AllocError> {
    let (line, begin) = Line::<u32>::new(alloc, 1)?;
    line_is_shared(&line);
    ends_may_cross(alloc, &begin)
}

/// Whether a queue with room for two, in which 7 is, is full after two, empty after two, and keeps the order.
fn keeps_order<R: Wait>(
    rt: &R,
    line: &Line<u32>,
    giver: &mut Giver<u32>,
    taker: &mut Taker<u32>,
) -> bool
    requires giver { giver.old.line ≡ line.now.table }
    requires taker { taker.old.line ≡ line.now.table }
    ensures giver { giver.new.line ≡ giver.old.line }
    ensures taker { taker.new.line ≡ taker.old.line }
{
    let gave = line.give(rt, giver, 8).is_ok();
    let full = line.give(rt, giver, 9) == Err(9);
    let first = line.take(rt, taker) == Some(7);
    let second = line.take(rt, taker) == Some(8);
    let empty = line.take(rt, taker).is_none();
    gave && full && first && second && empty
}

/// Whether such a queue keeps the order, and what a giver that waits gives then comes to a taker that waits.
fn keeps_order_and_waits<R: Wait>(
    rt: &R,
    line: &Line<u32>,
    giver: &mut Giver<u32>,
    taker: &mut Taker<u32>,
) -> bool
    requires giver { giver.old.line ≡ line.now.table }
    requires taker { taker.old.line ≡ line.now.table }
    ensures giver { giver.new.line ≡ giver.old.line }
    ensures taker { taker.new.line ≡ taker.old.line }
{
    if !keeps_order(rt, line, giver, taker) {
        return false;
    }
    line.give_waiting(rt, giver, 11);
    line.take_waiting(rt, taker) == 11
}

// The ends meet from the taker's side.
#[test]
fn a_queue_is_full_and_empty(rt: HostRuntime) -> Result<(), Fail> {
    queues_may_cross(rt.alloc())?;
    let (line, mut start) = Line::new(rt.alloc(), 2)?;
    let put = line.put(&mut start, 7u32).is_ok();
    let (mut giver, mut taker) = line.part(start);
    let kept = keeps_order_and_waits(&rt, &line, &mut giver, &mut taker);
    line.meet_giver(&mut taker, giver);
    assert!(rt; put && kept);
    Ok(())
}
