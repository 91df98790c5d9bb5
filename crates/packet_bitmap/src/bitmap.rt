ghost use Rattle.std.specs.Prelude.{◌≡◌, ℕ, ◌+◌, ◌*◌, ◌/◌, ◌<◌, ◌≤◌, ◌==◌, true, false, not, length, replicate, slice_index, slice_set, IfOk};
ghost use Rattle.std.specs.Int.{bit_at};
ghost use Rattle.missing_ranges.specs.RangeLaws.{IsFirstHole};
ghost use Rattle.packet_bitmap.specs.Bits.{has, HasClear};

use crate::words::{first_with, is_set, words_for};
use gev_types::NoMemory;
use std::alloc::Global;
use std::marker::Model;

/// A set of ids from 0 on, below a number of ids that stays.
///
/// Contracts see it as a list with a truth value for each id.
#[derive(Drop)]
pub struct Bitmap {
    words: Vec<u64>,
    ids: u32,
}

impl Model for Bitmap {
    ghost use Rattle.std.specs.Prelude.{List, Bool};
    ghost use Rattle.packet_bitmap.specs.Bits.{bits_of, AreBits};

    ghost Value = { List Bool };

    ghost view = { λ b. bits_of b.words.items b.ids };

    ghost invariant = { λ b. AreBits b.words.items b.ids };
}

impl Bitmap {
    /// A bitmap of this many ids, all of them clear.
    pub fn new(alloc: Global, ids: u32) -> Result<Bitmap, NoMemory>
        ensures bits { IfOk result (λ bitmap. bitmap ≡ replicate ids false) }
        ensures ids { IfOk result (λ bitmap. length bitmap ≡ ids) }
    {
        let words = vec![in alloc; 0u64; words_for(ids)]?;
        Ok(Bitmap { words, ids })
    }

    /// The number of its ids, which are those below it.
    pub fn ids(&self) -> u32
        ensures { result ≡ length self.now }
    {
        self.ids
    }

    /// Sets the id, and says whether it was clear.
    pub fn set(&mut self, id: u32) -> bool
        requires { id < length self.old }
        ensures was_clear { result ≡ not (has self.old id) }
        ensures bits { self.new ≡ slice_set self.old id true }
        ensures ids { length self.new ≡ length self.old }
    {
        let was_clear = !self.has(id);
        self.words[(id / 64) as usize] |= 1 << (id % 64);
        was_clear
    }

    /// Whether the id is set.
    pub fn has(&self, id: u32) -> bool
        requires { id < length self.now }
        ensures { result ≡ has self.now id }
    {
        is_set(self.words.as_slice(), id)
    }

    /// The first range of clear ids within `from` to `top` that no neighbour there makes longer, by
    /// its first and its last id. None where each of these ids is set, and where `from` is above
    /// `top`.
    pub fn next_hole(&self, from: u32, top: u32) -> Option<(u32, u32)>
        requires from { from < length self.now }
        requires top { top < length self.now }
        ensures { IsFirstHole (has self.now) from (top + 1) result }
    {
        let words = self.words.as_slice();
        let end = top + 1;
        let first = first_with(words, false, from, end);
        if first >= end {
            return None;
        }
        let behind = first_with(words, true, first, end);
        Some((first, behind - 1))
    }

    /// Whether the ids from 0 to `top` are all set.
    pub fn covers(&self, top: u32) -> bool
        requires { top < length self.now }
        ensures covered { result ≡ true → (id : ℕ) → id ≤ top → has self.now id ≡ true }
        ensures not_covered { result ≡ false → HasClear self.now top }
    {
        first_with(self.words.as_slice(), false, 0, top + 1) > top
    }

    /// Makes every id clear.
    pub fn reset(&mut self)
        ensures bits { self.new ≡ replicate (length self.old) false }
        ensures ids { length self.new ≡ length self.old }
    {
        self.words.fill(0);
    }

    /// The words: bit `j` of word `i`, bit 0 the lowest, is that of the id `64 * i + j`. Bits past
    /// the last id are clear.
    pub fn words(&self) -> &[u64]
        ensures count { length result.now ≡ (length self.now + 63) / 64 }
        ensures bits { (i j : ℕ) → i < length result.now → j < 64
            → (bit_at (slice_index result.now i) j == 1) ≡ has self.now (64 * i + j) }
    {
        self.words.as_slice()
    }
}
