//! The ranges of packet ids that a camera is to be asked for again.

ghost use Rattle.std.specs.Prelude.{◌≡◌, ◌+◌, ◌<◌, ◌≤◌, length, take};
ghost use Rattle.missing_ranges.specs.Ranges.{holes};
ghost use Rattle.missing_ranges.specs.RangeLaws.{IsFirstHole};
ghost use Rattle.acq_core.specs.Either.{in_either};

use arrayvec::ArrayVec;
use packet_bitmap::Bitmap;

/// Empties the list, and puts the first eight missing ranges into it, lowest first: the maximal ranges
/// of ids from 0 to `top` that stand in neither bitmap, each by its first and its last id.
pub fn requests(kept: &Bitmap, refused: &Bitmap, top: u32, out: &mut ArrayVec<(u32, u32), 8>)
    requires kept { top < length kept.now }
    requires refused { top < length refused.now }
    ensures { out.new.items ≡ take 8 (holes (in_either kept.now refused.now) 0 (top + 1)) }
{
    out.clear();
    let mut from = 0;
    while out.len() < 8 {
        match next_range(kept, refused, from, top) {
            None => return,
            Some(range) => {
                out.push(range);
                if range.1 >= top {
                    return;
                }
                from = range.1 + 1;
            }
        }
    }
}

/// The first missing range of ids within `from` to `top`.
fn next_range(kept: &Bitmap, refused: &Bitmap, from: u32, top: u32) -> Option<(u32, u32)>
    requires from { from ≤ top }
    requires kept { top < length kept.now }
    requires refused { top < length refused.now }
    ensures { IsFirstHole (in_either kept.now refused.now) from (top + 1) result }
{
    let mut at = from;
    while let Some((first, last)) = kept.next_hole(at, top) {
        if let Some(range) = refused.next_hole(first, last) {
            return Some(range);
        }
        if last >= top {
            return None;
        }
        at = last + 1;
    }
    None
}
