//! A queue with two ends.

use crate::line_ends::{Giver, Start, Taker};
use crate::line_log::Log;
use crate::line_rule::{Gave, Missed, OneToOne, Refused, Roles, Took, Total, WithGiver, WithTaker};
use crossbeam_queue::RuledArrayQueue;
use idle_rests::{Rest, SHORT, rest_for};
use std::alloc::{AllocError, Global};
use std::marker::Model;
use std::sync::Wait;
use std::sync::atomic::{AtomicU64, Ordering};
use std::time::Duration;

/// How many looks for an item come before the taker sleeps.
const LOOKS: u32 = 20;

/// How long the taker sleeps at most before it looks again, in milliseconds, also where nobody wakes it.
const SLEEP: u64 = 5;

/// A bounded queue with one end that gives and one that takes.
#[derive(Drop)]
pub struct Line<T: Drop> {
    queue: RuledArrayQueue<T, Log<T>, OneToOne>,
    // 1 where the taker sleeps or is about to. The giver makes it 0 and wakes the taker. No clause speaks of it.
    asleep: AtomicU64,
}

impl<T: Drop> Model for Line<T> {
    ghost use Rattle.crossbeam_queue.specs.Passes.{ruled_capacity};
    ghost use Rattle.gev_lanes.specs.LineEnds.{LineId};

    ghost Value = { LineId };

    ghost view = { λ l. record { table = l.queue.table.shared.table_id; capacity = ruled_capacity l.queue } };
}

impl<T: Drop> Line<T> {
    ghost use Rattle.std.specs.Prelude.{◌≡◌, ◌<◌, ◌≤◌, [], ◌∷◌, length, IfOk, IfErr, IfSome, IfNone};
    ghost use Rattle.gev_lanes.specs.LineEnds.{gave, took, refused, missed, WasEmpty, WasFull, BeginsWith};

    /// A queue with room for so many items, and both its ends.
    pub fn new(alloc: Global, capacity: usize) -> Result<(Line<T>, Start<T>), AllocError>
        requires { 0 < capacity }
        ensures capacity { IfOk result (λ made. made.0.capacity ≡ capacity) }
        ensures start { IfOk result (λ made. made.1 ≡ record { line = made.0.table; given = []; refusals = 0 }) }
    {
        let (queue, pass) = RuledArrayQueue::ruled(alloc, capacity)?;
        let line = Line {
            queue,
            asleep: AtomicU64::new(0),
        };
        Ok((line, Start { pass }))
    }

    /// Puts an item in before the ends part. It comes back where the queue is full.
    pub fn put(&self, start: &mut Start<T>, item: T) -> Result<(), T>
        requires line { start.old.line ≡ self.now.table }
        ensures line { start.new.line ≡ start.old.line }
        ensures put { IfOk result (λ _. start.new ≡ gave start.old (item ∷ [])) }
        ensures back { IfErr result (λ back. back ≡ item) }
        ensures same { IfErr result (λ _. start.new ≡ start.old) }
    {
        self.queue.try_push_as::<Gave>(&mut start.pass, item)
    }

    /// The ends part.
    pub fn part(&self, start: Start<T>) -> (Giver<T>, Taker<T>)
        requires line { start.line ≡ self.now.table }
        ensures giver { result.0 ≡ start }
        ensures taker { result.1 ≡ record { line = start.line; least = length start.given; taken = []; misses = 0 } }
    {
        let Start { mut pass } = start;
        let taker = self.queue.another::<Roles>(&mut pass);
        (Giver { pass }, Taker { pass: taker })
    }

    // Gives an item, and doesn't count where the queue was full.
    fn push<R: Wait>(&self, rt: &R, giver: &mut Giver<T>, item: T) -> Result<(), T>
        requires line { giver.old.line ≡ self.now.table }
        ensures line { giver.new.line ≡ giver.old.line }
        ensures given { IfOk result (λ _. giver.new ≡ gave giver.old (item ∷ [])) }
        ensures back { IfErr result (λ back. back ≡ item) }
        ensures same { IfErr result (λ _. giver.new ≡ giver.old) }
        ensures full { IfErr result (λ _. WasFull self.now.capacity giver.old) }
    {
        self.queue.push_as::<Gave, R>(rt, &mut giver.pass, item)
    }

    // Wakes the taker where it sleeps.
    fn wake(&self) {
        if self.asleep.load(Ordering::SeqCst) == 1 {
            self.asleep.store(0, Ordering::SeqCst);
            self.asleep.wake_one();
        }
    }

    // Where so many looks found nothing: says that the taker is about to sleep, and at the next look, that it sleeps.
    // How many looks that is by now.
    fn sleep<R: Wait>(&self, rt: &R, looks: u32) -> u32 {
        if looks < LOOKS {
            return looks + 1;
        }
        if looks == LOOKS {
            self.asleep.store(1, Ordering::SeqCst);
            return looks + 1;
        }
        self.asleep
            .park_timeout(rt, 1, Duration::from_millis(SLEEP));
        LOOKS
    }

    // Takes the oldest item, and doesn't count where the queue was empty.
    fn pop<R: Wait>(&self, rt: &R, taker: &mut Taker<T>) -> Option<T>
        requires line { taker.old.line ≡ self.now.table }
        ensures line { taker.new.line ≡ taker.old.line }
        ensures taken { IfSome result (λ item. taker.new ≡ took taker.old (item ∷ [])) }
        ensures same { IfNone result (taker.new ≡ taker.old) }
        ensures empty { IfNone result (WasEmpty taker.old) }
    {
        self.queue.pop_as::<Took, R>(rt, &mut taker.pass)
    }

    /// Gives an item. It comes back where the queue was full at one moment of the call, which the giver counts.
    pub fn give<R: Wait>(&self, rt: &R, giver: &mut Giver<T>, item: T) -> Result<(), T>
        requires line { giver.old.line ≡ self.now.table }
        ensures line { giver.new.line ≡ giver.old.line }
        ensures given { IfOk result (λ _. giver.new ≡ gave giver.old (item ∷ [])) }
        ensures back { IfErr result (λ back. back ≡ item) }
        ensures refused { IfErr result (λ _. giver.new ≡ refused giver.old) }
        ensures full { IfErr result (λ _. WasFull self.now.capacity giver.old) }
    {
        match self.push(rt, giver, item) {
            Ok(()) => {
                self.wake();
                Ok(())
            }
            Err(back) => {
                self.queue.another::<Refused>(&mut giver.pass);
                Err(back)
            }
        }
    }

    /// Takes the oldest item. None where the queue was empty at one moment of the call, which the taker counts.
    pub fn take<R: Wait>(&self, rt: &R, taker: &mut Taker<T>) -> Option<T>
        requires line { taker.old.line ≡ self.now.table }
        ensures line { taker.new.line ≡ taker.old.line }
        ensures taken { IfSome result (λ item. taker.new ≡ took taker.old (item ∷ [])) }
        ensures missed { IfNone result (taker.new ≡ missed taker.old) }
        ensures empty { IfNone result (WasEmpty taker.old) }
    {
        match self.pop(rt, taker) {
            Some(item) => Some(item),
            None => {
                self.queue.another::<Missed>(&mut taker.pass);
                None
            }
        }
    }

    /// Gives an item, once the queue has room for it. The tries before that count nothing.
    pub fn give_waiting<R: Wait>(&self, rt: &R, giver: &mut Giver<T>, item: T)
        requires line { giver.old.line ≡ self.now.table }
        ensures given { giver.new ≡ gave giver.old (item ∷ []) }
    {
        self.give_quietly(rt, giver, item);
        self.wake();
    }

    /// The same, of an item that can wait for a few milliseconds: a taker that sleeps isn't woken for it.
    pub fn give_quietly<R: Wait>(&self, rt: &R, giver: &mut Giver<T>, item: T)
        requires line { giver.old.line ≡ self.now.table }
        ensures given { giver.new ≡ gave giver.old (item ∷ []) }
    {
        let mut kept = item;
        let mut rest = Rest::new();
        'tries: for _ in rt.forever() {
            match self.push(rt, giver, kept) {
                Ok(()) => return,
                Err(again) => kept = again,
            }
            rest.rest(rt);
        }
        unreachable!()
    }

    /// Takes the oldest item, once there is one. The tries before that count nothing.
    pub fn take_waiting<R: Wait>(&self, rt: &R, taker: &mut Taker<T>) -> T
        requires line { taker.old.line ≡ self.now.table }
        ensures taken { taker.new ≡ took taker.old (result ∷ []) }
    {
        let mut looks = 0;
        'tries: for _ in rt.forever() {
            match self.pop(rt, taker) {
                Some(item) => return item,
                None => {}
            }
            looks = self.sleep(rt, looks);
        }
        unreachable!()
    }

    // How many items wait at one moment of the call.
    fn waiting<R: Wait>(&self, rt: &R, taker: &mut Taker<T>) -> usize
        requires line { taker.old.line ≡ self.now.table }
        ensures same { taker.new ≡ taker.old }
    {
        self.queue.len_as::<Took, R>(rt, &mut taker.pass)
    }

    /// Rests while fewer than `few` items wait, a tenth of a millisecond at a time and `most` times at most: how
    /// often it did.
    pub fn rest_while_few<R: Wait>(
        &self,
        rt: &R,
        taker: &mut Taker<T>,
        few: usize,
        most: u32,
    ) -> u32
        requires line { taker.old.line ≡ self.now.table }
        ensures same { taker.new ≡ taker.old }
        ensures most { result ≤ most }
    {
        'rests: for rests in 0..most {
            if self.waiting(rt, taker) >= few {
                return rests;
            }
            rest_for(rt, SHORT);
        }
        most
    }

    /// The ends meet: what was taken is the front of what was given.
    pub fn meet_taker(&self, giver: &mut Giver<T>, taker: Taker<T>)
        requires giver { giver.old.line ≡ self.now.table }
        requires taker { taker.line ≡ self.now.table }
        ensures same { giver.new ≡ giver.old }
        ensures front { BeginsWith giver.new.given taker.taken }
    {
        let Taker { pass } = taker;
        self.queue.absorb::<WithTaker>(&mut giver.pass, pass);
        self.queue.learn_as::<Total>(&mut giver.pass);
    }

    /// The same from the other side.
    pub fn meet_giver(&self, taker: &mut Taker<T>, giver: Giver<T>)
        requires taker { taker.old.line ≡ self.now.table }
        requires giver { giver.line ≡ self.now.table }
        ensures same { taker.new ≡ taker.old }
        ensures front { BeginsWith giver.given taker.new.taken }
    {
        let Giver { pass } = giver;
        self.queue.absorb::<WithGiver>(&mut taker.pass, pass);
        self.queue.learn_as::<Total>(&mut taker.pass);
    }
}
