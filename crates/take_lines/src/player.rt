ghost use Rattle.std.specs.Prelude.{◌≡◌, ◌≤◌, length, vec_capacity, IfOk};
ghost use Rattle.std.specs.List.{AllByRecursion};

use crate::turning::{give, tell, tell_moment, tell_stop};
use acq_core::{Acq, AcqConfig, Need};
use arrayvec::ArrayVec;
use gev_types::{Buf, NoMemory};
use std::alloc::Global;
use std::marker::Model;

/// The acquisition that a script plays, with as many buffers of one size as blocks may be open. What comes back is
/// given to the next block that asks, whatever place it's said to have.
///
/// Contracts see the acquisition and the size of a buffer.
#[derive(Drop)]
pub struct Player {
    acq: Acq,
    size: u32,
    spare: Vec<Buf>,
}

impl Model for Player {
    ghost use Rattle.std.specs.Prelude.{◌≤◌, vec_capacity};
    ghost use Rattle.take_lines.specs.Players.{PlayerState};
    ghost use Rattle.take_lines.specs.Pool.{IsPlaying};

    ghost Value = { PlayerState };

    ghost view = { λ x. record { acq = x.acq; size = x.size } };

    ghost invariant = { λ x. IsPlaying x.size x.acq x.spare.items × (4 ≤ vec_capacity x.spare) };
}

/// So many buffers of this size, with room for four.
fn new_buffers(alloc: Global, count: u8, size: u32) -> Result<Vec<Buf>, NoMemory>
    requires few { count ≤ 4 }
    requires some { 1 ≤ size }
    requires in_limits { size ≤ 67108864 }
    ensures count { IfOk result (λ spare. length spare.items ≡ count) }
    ensures sized { IfOk result (λ spare. AllByRecursion (λ f. length f.bytes ≡ size) spare.items) }
    ensures room { IfOk result (λ spare. 4 ≤ vec_capacity spare) }
{
    let mut spare = Vec::with_capacity(alloc, 4)?;
    for _ in 0..count {
        let buf = Buf::new(alloc, size)?;
        spare.push_reserved(buf);
    }
    Ok(spare)
}

impl Player {
    ghost use Rattle.std.specs.Prelude.{◌≡◌, ◌≤◌, [], List, IfOk, IsSome, Some};
    ghost use Rattle.acquisition_machine.specs.Machine.{Input, datagram, claimed, tick as moment_input, stop as stopped};
    ghost use Rattle.acquisition_machine.specs.Runs.{turn};
    ghost use Rattle.acquisition_machine.specs.TurnLaws.{asked_by};
    ghost use Rattle.acq_core.specs.Standing.{IsConfig};
    ghost use Rattle.take_lines.specs.Players.{config_in, asked_in, Took, outcome_of, Plays};

    /// A player that was told nothing yet, with buffers of `size` bytes, from 1 to 67,108,864. All memory is taken
    /// here.
    pub fn new(alloc: Global, config: AcqConfig, size: u32) -> Result<Player, NoMemory>
        requires config { IsConfig config }
        requires some { 1 ≤ size }
        requires in_limits { size ≤ 67108864 }
        ensures took { IfOk result (λ player. Took player []) }
        ensures config { IfOk result (λ player. config_in player ≡ config) }
        ensures size { IfOk result (λ player. player.size ≡ size) }
    {
        let spare = new_buffers(alloc, config.window, size)?;
        Ok(Player {
            acq: Acq::new(alloc, config)?,
            size,
            spare,
        })
    }

    /// A datagram comes. Answers what it needs or what became of it, and the places of the buffers that come back, in
    /// order. Where it needs a buffer, the outcome is told by `give`, and the datagram again.
    pub fn datagram(&mut self, bytes: &[u8]) -> (Need, ArrayVec<u8, 4>)
        ensures need { (q : List Input) → Took self.old q → (turn (config_in self.old) q (datagram bytes.now)).need ≡ Some result.0 }
        ensures asked { asked_in self.new ≡ asked_by (Some result.0) }
        ensures plays { Plays self.old self.new (datagram bytes.now) result.1.items }
    {
        tell(&mut self.acq, &mut self.spare, self.size, bytes)
    }

    /// The outcome of the claim for which `datagram` asked: a buffer at this place, or none. Nothing comes back.
    pub fn give(&mut self, place: Option<u8>)
        requires asked { IsSome (asked_in self.old) }
        ensures plays { Plays self.old self.new (claimed (outcome_of self.old.size place)) [] }
    {
        give(&mut self.acq, &mut self.spare, self.size, place)
    }

    /// Time goes on to this moment, in milliseconds; nothing is asked of a camera. Answers the places of the buffers
    /// that come back, in order.
    pub fn tick(&mut self, moment: u64) -> ArrayVec<u8, 4>
        ensures plays { Plays self.old self.new (moment_input moment) result.items }
    {
        tell_moment(&mut self.acq, &mut self.spare, self.size, moment)
    }

    /// The stream stops. Answers the places of the buffers that come back, in order.
    pub fn stop(&mut self) -> ArrayVec<u8, 4>
        ensures plays { Plays self.old self.new stopped result.items }
    {
        tell_stop(&mut self.acq, &mut self.spare, self.size)
    }
}
