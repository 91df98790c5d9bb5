ghost use Rattle.std.specs.Prelude.{◌≡◌, ℕ, ◌+◌, ◌≤◌, ◌^◌, List, length, MatchResult, Ok};
ghost use Rattle.gvsp_wire.specs.Reading.{is_extended};
ghost use Rattle.gvsp_std.specs.Blocks.{cycle};
ghost use Rattle.gvsp_std.specs.Widening.{widened, IsWidened, IsRefused};

use crate::blocks::chosen;
use crate::std_error::StdError;
use crate::writing::{EXTENDED_ID, STANDARD_SIZE, write_wide};
use std::marker::Model;
use wire_fields::u16_at;

/// The block id that no packet has.
const NO_BLOCK: u16 = 0;

/// Gives datagrams of a stream with standard identifiers extended ones. Contracts see the greatest
/// block given so far, 0 before the first.
#[derive(Drop)]
pub struct Widener {
    top: u64,
}

impl Model for Widener {
    ghost Value = { ℕ };

    ghost view = { λ w. w.top };
}

/// Whether a format byte says extended identifiers.
fn has_extended_ids(format_byte: u8) -> bool
    ensures { result ≡ is_extended format_byte }
{
    format_byte & EXTENDED_ID != 0
}

impl Widener {
    /// A widener before the first block.
    pub fn new() -> Widener
        ensures { result ≡ 0 }
    {
        Widener { top: 0 }
    }

    /// The greatest block given so far, 0 before the first.
    pub fn top(&self) -> u64
        ensures { result ≡ self.now }
    {
        self.top
    }

    /// Writes the datagram with extended identifiers that this one becomes to the front of a slice, and
    /// leaves the rest of it (GigE Vision 1.x and 2.0, GVSP packet headers). The answer is the number of
    /// bytes written, 12 more than the datagram has.
    ///
    /// Its block is the one near the greatest so far that has the datagram's block id. A refusal
    /// changes nothing and needs no room.
    pub fn widen(&mut self, bytes: &[u8], out: &mut [u8]) -> Result<usize, StdError>
        requires room { (x : ℕ × List ℕ) → widened self.old bytes.now ≡ Ok x → length x.1 ≤ length out.old }
        requires top { self.old ≤ 2 ^ 63 }
        ensures answer { MatchResult result
            (λ len. IsWidened self.old bytes.now out.old len self.new out.new)
            (λ refusal. IsRefused self.old bytes.now out.old refusal self.new out.new) }
        // The greatest block rises by few blocks a call, so `top` holds for long.
        ensures slow { self.new ≤ self.old + cycle }
    {
        if bytes.len() < STANDARD_SIZE {
            return Err(StdError::Short(bytes.len() as u32));
        }
        if has_extended_ids(bytes[4]) {
            return Err(StdError::Extended);
        }
        let id = u16_at(bytes, 2);
        if id == NO_BLOCK {
            return Err(StdError::Zero);
        }
        let Some(block) = chosen(self.top, id) else {
            return Err(StdError::Before(id));
        };
        let len = write_wide(out, block, bytes);
        self.top = self.top.max(block);
        Ok(len)
    }
}
