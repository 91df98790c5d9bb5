//! Which packet ids of a block have no kept packet.

ghost use Rattle.std.specs.Prelude.{◌≡◌, ◌+◌, ◌≤◌, ℕ, List, [], ◌∷◌, ◌++◌, length};
ghost use Rattle.gev_types.specs.Limits.{max_packet_id};
ghost use Rattle.missing_ranges.specs.Accounts.{lost_of};
ghost use Rattle.missing_ranges.specs.Ranges.{holes};
ghost use Rattle.packet_bitmap.specs.Bits.{has};
ghost use Rattle.block_assembly.specs.PacketIds.{packet_ids};

use gev_types::Lost;
use packet_bitmap::Bitmap;

/// Where none is lost.
pub(crate) fn none_lost() -> Lost
    ensures { result ≡ lost_of [] }
{
    Lost {
        ids: 0,
        ranges: 0,
        first: [(0, 0); 8],
    }
}

/// Adds a range that lies above those that were added.
fn add(lost: &mut Lost, range: (u32, u32))
    requires rises { range.0 ≤ range.1 }
    requires in_range { range.1 ≤ max_packet_id }
    requires ids { lost.old.ids ≤ range.0 }
    requires ranges { lost.old.ranges ≤ range.0 }
    ensures { (rs : List (ℕ × ℕ)) → lost.old ≡ lost_of rs → lost.new ≡ lost_of (rs ++ range ∷ []) }
{
    if lost.ranges < 8 {
        lost.first[lost.ranges as usize] = range;
    }
    lost.ids += range.1 + 1 - range.0;
    lost.ranges += 1;
}

/// The ids from 0 to `top` that are clear.
pub(crate) fn lost_to(kept: &Bitmap, top: u32) -> Lost
    requires wide { length kept.now ≡ packet_ids }
    requires top { top ≤ max_packet_id }
    ensures { result ≡ lost_of (holes (has kept.now) 0 (top + 1)) }
{
    let mut lost = none_lost();
    let mut from = 0;
    while from <= top {
        match kept.next_hole(from, top) {
            None => return lost,
            Some(range) => {
                add(&mut lost, range);
                from = range.1 + 1;
            }
        }
    }
    lost
}
