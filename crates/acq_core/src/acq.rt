use crate::ended::Ended;
use crate::ending::forget;
use crate::giving::give;
use crate::hearing::hear;
use crate::making::first_window;
use crate::retiring::{restart, stop};
use crate::rounds::tick;
use crate::waiting::{first_request, next_ended, next_fill, next_request};
use crate::window::Window;
use acquisition_machine::{AcqConfig, Counts, Need, Retired};
use gev_types::{Buf, NoMemory};
use gvcp_wire::Resend;
use std::alloc::Global;
use std::marker::Model;

/// The receiver of one stream.
///
/// It takes the datagrams of a stream and moments, keeps a few blocks open, and gives back their buffers
/// and the commands that ask the camera for missing packets. Only `new` takes memory.
#[derive(Drop)]
pub struct Acq {
    window: Window,
}

impl Model for Acq {
    ghost use Rattle.acq_core.specs.declared.window.Window.{Window};
    ghost use Rattle.acq_core.specs.Receiver.{IsReceiver};

    ghost Value = { Window };

    ghost view = { λ a. a.window };

    ghost invariant = { λ a. IsReceiver a.window };
}

impl Acq {
    ghost use Rattle.std.specs.Prelude.{◌≡◌, ◌++◌, ◌∷◌, [], List, length, IfOk, IfSome, IsSome, MatchOption, None, Some, true, false};
    ghost use Rattle.acquisition_machine.specs.Machine.{Input, datagram, claimed, tick as moment_input, stop as stopped, restart as restarted};
    ghost use Rattle.acquisition_machine.specs.Machine.{open_at};
    ghost use Rattle.acquisition_machine.specs.Runs.{After, turn};
    ghost use Rattle.acquisition_machine.specs.TurnLaws.{asked_by, TakesGiven};
    ghost use Rattle.gvcp_wire.specs.declared.resend.Resend.{Resend as ResendOf};
    ghost use Rattle.acq_core.specs.Standing.{IsConfig, capped};
    ghost use Rattle.acq_core.specs.Waiting.{waiting_fills, waiting_requests, waiting_resends, waiting_ends};
    ghost use Rattle.acq_core.specs.Giving.{given_as};
    ghost use Rattle.acq_core.specs.Receiver.{config_of, is_telling, asked_block, open_count, buffers, rounds_of, Stands, Takes, KeepsBuffers, KeepsBlocks};

    /// A receiver that heard nothing yet. It takes all the memory that the receiver will use: for each
    /// place of the window two bitmaps of 131,074 packet ids, and the lists of what is open and waits.
    pub fn new(alloc: Global, config: AcqConfig) -> Result<Acq, NoMemory>
        requires { IsConfig config }
        ensures stands { IfOk result (λ acq. Stands acq []) }
        ensures config { IfOk result (λ acq. config_of acq ≡ config) }
        ensures fills { IfOk result (λ acq. waiting_fills acq ≡ []) }
        ensures requests { IfOk result (λ acq. waiting_requests acq ≡ []) }
        ensures ends { IfOk result (λ acq. waiting_ends acq ≡ []) }
        ensures telling { IfOk result (λ acq. is_telling acq ≡ false) }
        ensures buffers { IfOk result (λ acq. buffers acq ≡ []) }
        ensures opens { IfOk result (λ acq. open_count acq ≡ 0) }
        ensures asked { IfOk result (λ acq. asked_block acq ≡ None) }
    {
        let window = first_window(alloc, config)?;
        Ok(Acq { window })
    }

    /// Takes a datagram, and says what it needs or what became of it.
    ///
    /// Where the answer is `Buffer`, a buffer is to be claimed, the outcome told by `give`, and the
    /// datagram told again. What waited before has to be taken.
    pub fn datagram(&mut self, bytes: &[u8]) -> Need
        requires no_fill { waiting_fills self.old ≡ [] }
        requires no_request { waiting_requests self.old ≡ [] }
        ensures need { (q : List Input) → Stands self.old q → (turn (config_of self.old) q (datagram bytes.now)).need ≡ Some result }
        ensures takes { Takes self.old self.new (datagram bytes.now) }
        ensures requests { waiting_requests self.new ≡ [] }
        ensures buffers { KeepsBuffers self.old self.new }
        ensures asked { asked_block self.new ≡ asked_by (Some result) }
    {
        forget(&mut self.window);
        hear(&mut self.window, bytes)
    }

    /// The outcome of the claim for which `datagram` asked: a buffer with the number of its place, or
    /// None. The block is opened, and without a buffer it is starved: that is an underrun.
    pub fn give(&mut self, answer: Option<(u8, Buf)>)
        requires asked { IsSome (asked_block self.old) }
        ensures takes { Takes self.old self.new (claimed (given_as answer)) }
        ensures fills { waiting_fills self.new ≡ waiting_fills self.old }
        ensures requests { waiting_requests self.new ≡ waiting_requests self.old }
        ensures buffers { TakesGiven (given_as answer) (asked_block self.old) (buffers self.old) (buffers self.new) }
        ensures asked { asked_block self.new ≡ None }
    {
        forget(&mut self.window);
        give(&mut self.window, answer);
    }

    /// Takes the moment, in milliseconds: blocks that are old retire, and the others ask for what is
    /// missing. A moment below one that was told before counts as that one. What waited before has to
    /// be taken.
    pub fn tick(&mut self, moment: u64)
        requires no_fill { waiting_fills self.old ≡ [] }
        requires no_request { waiting_requests self.old ≡ [] }
        ensures takes { Takes self.old self.new (moment_input moment) }
        ensures buffers { KeepsBuffers self.old self.new }
        ensures asked { asked_block self.new ≡ None }
    {
        forget(&mut self.window);
        tick(&mut self.window, moment);
    }

    /// All open blocks retire as they are, the lowest first. What waited before has to be taken.
    pub fn stop(&mut self)
        requires no_fill { waiting_fills self.old ≡ [] }
        requires no_request { waiting_requests self.old ≡ [] }
        ensures takes { Takes self.old self.new stopped }
        ensures requests { waiting_requests self.new ≡ [] }
        ensures buffers { KeepsBuffers self.old self.new }
        ensures no_buffer { buffers self.new ≡ [] }
        ensures none_open { open_count self.new ≡ 0 }
        ensures asked { asked_block self.new ≡ None }
    {
        forget(&mut self.window);
        stop(&mut self.window);
    }

    /// A new acquisition begins: packets of block 1 and of any later one are taken again. No block may be
    /// open.
    pub fn restart(&mut self)
        requires { open_count self.old ≡ 0 }
        ensures takes { Takes self.old self.new restarted }
        ensures fills { waiting_fills self.new ≡ waiting_fills self.old }
        ensures requests { waiting_requests self.new ≡ waiting_requests self.old }
        ensures no_buffer { buffers self.new ≡ [] }
        ensures none_open { open_count self.new ≡ 0 }
        ensures asked { asked_block self.new ≡ None }
    {
        forget(&mut self.window);
        restart(&mut self.window);
    }

    /// The first fill that waits, which waits no longer; None where none does.
    pub fn next_fill(&mut self) -> Option<Retired>
        ensures fill { MatchOption result ((waiting_fills self.old ≡ []) × (waiting_fills self.new ≡ []))
            (λ fill. waiting_fills self.old ≡ fill ∷ waiting_fills self.new) }
        ensures requests { waiting_requests self.new ≡ waiting_requests self.old }
        ensures resends { waiting_resends self.new ≡ waiting_resends self.old }
        ensures ends { waiting_ends self.new ≡ waiting_ends self.old }
        ensures telling { is_telling self.new ≡ is_telling self.old }
        ensures rest { KeepsBlocks self.old self.new }
    {
        next_fill(&mut self.window)
    }

    /// The bytes of the first request that waits, which waits no longer; None where none does.
    pub fn next_request(&mut self) -> Option<[u8; 28]>
        ensures request { MatchOption result ((waiting_requests self.old ≡ []) × (waiting_requests self.new ≡ []))
            (λ bytes. waiting_requests self.old ≡ bytes ∷ waiting_requests self.new) }
        ensures resend { MatchOption result (waiting_resends self.old ≡ waiting_resends self.new)
            (λ bytes. (r : ResendOf) × (waiting_resends self.old ≡ r ∷ waiting_resends self.new)) }
        ensures fills { waiting_fills self.new ≡ waiting_fills self.old }
        ensures ends { waiting_ends self.new ≡ waiting_ends self.old }
        ensures telling { is_telling self.new ≡ is_telling self.old }
        ensures rest { KeepsBlocks self.old self.new }
    {
        next_request(&mut self.window)
    }

    /// What the first request that waits asks for, and the number of its block's round. It waits on.
    pub fn first_request(&self) -> Option<(Resend, u8)>
        ensures request { MatchOption result (waiting_resends self.now ≡ [])
            (λ r. (rest : List ResendOf) × (waiting_resends self.now ≡ r.0 ∷ rest)) }
        ensures round { (q : List Input) → Stands self.now q
            → IfSome result (λ r. r.1 ≡ rounds_of (open_at r.0.block (After (config_of self.now) q).opens)) }
    {
        first_request(&self.window)
    }

    /// From now on each block that retires is told, by `next_ended`.
    pub fn tell_ends(&mut self)
        ensures telling { is_telling self.new ≡ true }
        ensures fills { waiting_fills self.new ≡ waiting_fills self.old }
        ensures requests { waiting_requests self.new ≡ waiting_requests self.old }
        ensures resends { waiting_resends self.new ≡ waiting_resends self.old }
        ensures ends { waiting_ends self.new ≡ waiting_ends self.old }
        ensures rest { KeepsBlocks self.old self.new }
    {
        self.window.telling = true;
    }

    /// The first block that retired at the last call and wasn't told yet, those without a buffer included;
    /// None where none is left, or where they aren't told. The next input forgets those that are left.
    pub fn next_ended(&mut self) -> Option<Ended>
        ensures end { MatchOption result ((waiting_ends self.old ≡ []) × (waiting_ends self.new ≡ []))
            (λ end. waiting_ends self.old ≡ end ∷ waiting_ends self.new) }
        ensures fills { waiting_fills self.new ≡ waiting_fills self.old }
        ensures requests { waiting_requests self.new ≡ waiting_requests self.old }
        ensures resends { waiting_resends self.new ≡ waiting_resends self.old }
        ensures telling { is_telling self.new ≡ is_telling self.old }
        ensures rest { KeepsBlocks self.old self.new }
    {
        next_ended(&mut self.window)
    }

    /// The greatest moment that was told, in milliseconds.
    pub fn now(&self) -> u64
        ensures { (q : List Input) → Stands self.now q → result ≡ (After (config_of self.now) q).now }
    {
        self.window.moment
    }

    /// What was counted since the receiver was made. Each count stands still at its type's end.
    pub fn counts(&self) -> Counts
        ensures { (q : List Input) → Stands self.now q → result ≡ capped (After (config_of self.now) q).counts }
    {
        self.window.counts
    }

    /// How many blocks are open, those without a buffer included: at most as many as the window has.
    pub fn open_blocks(&self) -> u8
        ensures count { result ≡ open_count self.now }
        ensures opens { (q : List Input) → Stands self.now q → result ≡ length (After (config_of self.now) q).opens }
    {
        self.window.slots.len() as u8
    }
}
