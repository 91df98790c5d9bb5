//! Bits in a slice of words: the id `64 * i + j` is bit `j` of word `i`, bit 0 the lowest.

ghost use Rattle.std.specs.Prelude.{◌≡◌, ℕ, ◌+◌, ◌*◌, ◌/◌, ◌%◌, ◌^◌, ◌<◌, ◌≤◌, ◌==◌, true, false, not, length, slice_index, slice_set, bit_or, if◌then◌else◌, MatchOption};
ghost use Rattle.std.specs.Int.{bit_at, bit_not, w64};
ghost use Rattle.packet_bitmap.specs.Bits.{is_set, IsFirstWith, IsFirstIn};

/// How many words have a bit for each of these ids.
pub(crate) fn words_for(ids: u32) -> usize
    ensures { result ≡ (ids + 63) / 64 }
{
    (ids as usize + 63) / 64
}

/// Whether the id's bit is set.
pub(crate) fn is_set(words: &[u64], id: u32) -> bool
    requires { id / 64 < length words.now }
    ensures { result ≡ is_set words.now id }
{
    (words[(id / 64) as usize] >> (id % 64)) & 1 == 1
}

/// The word whose set bits are the wanted ones: itself, or its complement.
fn mark(word: u64, wanted: bool) -> u64
    ensures { result ≡ (if wanted then word else bit_not w64 word) }
{
    if wanted { word } else { !word }
}

/// The first bit from `from` on that is set or clear as wanted.
fn next_in(word: u64, wanted: bool, from: u32) -> Option<u32>
    requires { from < 64 }
    ensures { IsFirstIn word wanted from result }
{
    let marked = mark(word, wanted) >> from;
    if marked == 0 {
        None
    } else {
        Some(from + marked.trailing_zeros())
    }
}

/// The first id from `from` on, below `to`, that is set or clear as wanted, else `to`.
pub(crate) fn first_with(words: &[u64], wanted: bool, from: u32, to: u32) -> u32
    requires { to ≤ 64 * length words.now }
    ensures { IsFirstWith words.now wanted from to result }
{
    let limit = u64::from(to);
    let mut at = u64::from(from);
    while at < limit {
        let base = at / 64 * 64;
        if let Some(bit) = next_in(words[(at / 64) as usize], wanted, (at % 64) as u32) {
            return (base + u64::from(bit)).min(limit) as u32;
        }
        at = base + 64;
    }
    to
}
