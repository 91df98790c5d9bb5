ghost use Rattle.std.specs.Prelude.{◌≡◌, ◌≤◌, length, IfOk};
ghost use Rattle.capture_script.specs.Playing.{Played, nothing_played, heard, ticked, stopped};
ghost use Rattle.capture_script.specs.Standing.{StandsAt, PlaysLine};

use crate::hearing::receive_bytes;
use crate::turning::{tell_moment, tell_stop};
use gev_types::NoMemory;
use gvsp_std::Widener;
use std::alloc::Global;
use std::marker::Model;
use take_lines::{AcqConfig, Player};

/// The most bytes of a datagram in a script.
pub(crate) const MOST_BYTES: usize = 9999;

/// The acquisition that a script plays, of which each line says how many buffers it fills. They go back at once.
///
/// Contracts see the player, the most bytes of a payload, the size of a buffer, and the greatest block of a
/// datagram with standard identifiers.
#[derive(Drop)]
pub struct Playing {
    player: Player,
    p: u32,
    widener: Widener,
    room: Vec<u8>,
}

impl Model for Playing {
    ghost use Rattle.std.specs.Prelude.{◌≡◌, length};
    ghost use Rattle.take_lines.specs.Players.{config_in};
    ghost use Rattle.capture_script.specs.Playing.{config};
    ghost use Rattle.capture_script.specs.Standing.{PlayingState};

    ghost Value = { PlayingState };

    ghost view = { λ x. record { player = x.player; p = x.p; size = x.player.size; top = x.widener } };

    ghost invariant = { λ x. (config_in x.player ≡ config x.p) × (length x.room.items ≡ 10011) };
}

impl Playing {
    /// An acquisition that heard nothing yet, whose payloads have at most `p` bytes, from 528 to 8964, with buffers
    /// of `size` bytes, from 1 to 67,108,864. All memory is taken here.
    pub fn new(alloc: Global, p: u32, size: u32) -> Result<Playing, NoMemory>
        requires p_some { 528 ≤ p }
        requires p_most { p ≤ 8964 }
        requires some { 1 ≤ size }
        requires in_limits { size ≤ 67108864 }
        ensures stands { IfOk result (λ playing. StandsAt playing nothing_played) }
        ensures p { IfOk result (λ playing. playing.p ≡ p) }
        ensures size { IfOk result (λ playing. playing.size ≡ size) }
    {
        let config = AcqConfig {
            p,
            window: 4,
            timeout: 200,
            age: 20,
            rounds: 0,
        };
        let room = vec![in alloc; 0u8; MOST_BYTES + 12]?;
        Ok(Playing {
            player: Player::new(alloc, config, size)?,
            p,
            widener: Widener::new(),
            room,
        })
    }

    /// A datagram comes, and finds a buffer if it needs one. Answers how many buffers are filled.
    pub fn receive(&mut self, bytes: &[u8]) -> u8
        requires { length bytes.now ≤ 9999 }
        ensures { (s : Played) → StandsAt self.old s → PlaysLine (heard self.old.p self.old.size bytes.now s) self.old self.new result }
    {
        receive_bytes(
            &mut self.player,
            self.p,
            &mut self.widener,
            self.room.as_mut_slice(),
            bytes,
        )
    }

    /// Time goes on to this moment, in milliseconds. Answers how many buffers are filled.
    pub fn tick(&mut self, moment: u64) -> u8
        ensures { (s : Played) → StandsAt self.old s → PlaysLine (ticked self.old.p moment s) self.old self.new result }
    {
        tell_moment(&mut self.player, self.p, moment)
    }

    /// The stream stops. Answers how many buffers are filled.
    pub fn stop(&mut self) -> u8
        ensures { (s : Played) → StandsAt self.old s → PlaysLine (stopped self.old.p s) self.old self.new result }
    {
        tell_stop(&mut self.player, self.p)
    }
}
