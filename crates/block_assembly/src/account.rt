//! What is told of a block that retires, beside its image.

ghost use Rattle.std.specs.Prelude.{◌≡◌, ℕ, ◌+◌, ◌-◌, ◌≤◌, ◌<◌, ◌&&◌, not, nat_le, true, false, List, length};
ghost use Rattle.gev_types.specs.Limits.{max_packet_id, max_buffer_size};
ghost use Rattle.stream_packets.specs.Packets.{StreamPacket};
ghost use Rattle.stream_packets.specs.FramePackets.{payload_count};
ghost use Rattle.packet_bitmap.specs.Bits.{has};
ghost use Rattle.missing_ranges.specs.Reasons.{has_payloads_to, has_short_to, reasons_with, reasons};
ghost use Rattle.missing_ranges.specs.Lost.{lost};
ghost use Rattle.block_assembly.specs.PacketIds.{packet_ids};
ghost use Rattle.block_assembly.specs.Assembly.{IsAssembly, IsSound, is_trailer_within, HasClearFrom};
ghost use Rattle.missing_ranges.specs.Accounts.{lost_of, block_account};
ghost use Rattle.block_assembly.specs.Accounts.{account_of};

use crate::completing::{are_long, completes, extent, is_trailer_id, last_payload, lines_of, top};
use crate::lost::{lost_to, none_lost};
use crate::progress::{Ending, Progress};
use block_image::start_of_payload;
use gev_types::{BlockAccount, Cause, Lost, Reasons};
use gvsp_wire::LeaderInfo;
use packet_bitmap::Bitmap;

/// What is told of a block that retires with a buffer.
#[derive(Drop)]
pub struct Account {
    /// Whether the whole image is in the buffer.
    pub complete: bool,
    /// How many packets of the block were kept.
    pub kept: u32,
    /// Why the image isn't whole.
    pub why: Reasons,
    /// Which packet ids have no kept packet.
    pub lost: Lost,
    /// What the kept leader says of the image.
    pub leader: Option<LeaderInfo>,
    /// How many lines the kept trailer tells.
    pub lines: Option<u32>,
}

/// Whether the trailer has the id of a payload, of which there are `last`.
fn is_trailer_within(trailer: Option<Ending>, last: u32) -> bool
    ensures { result ≡ is_trailer_within trailer last }
{
    match trailer {
        Some(ending) => 1 <= ending.id && ending.id <= last,
        None => false,
    }
}

/// Whether some id from 1 to `last` is clear.
fn is_some_clear(kept: &Bitmap, last: u32) -> bool
    requires wide { length kept.now ≡ packet_ids }
    requires last { last ≤ max_packet_id }
    ensures some { result ≡ true → HasClearFrom kept.now last }
    ensures none { result ≡ false → (k : ℕ) → 1 ≤ k → k ≤ last → has kept.now k ≡ true }
{
    match kept.next_hole(1, last) {
        Some(_) => true,
        None => false,
    }
}

/// Whether some payload from 1 to `last` wasn't kept.
fn lacks_payload(assembly: &Progress, last: u32) -> bool
    requires sound { IsSound assembly.now }
    requires last { last ≤ max_packet_id }
    ensures { (ks : List StreamPacket) → IsAssembly assembly.now ks → result ≡ not (has_payloads_to last ks) }
{
    is_trailer_within(assembly.trailer, last) || is_some_clear(&assembly.kept, last)
}

/// Whether some payload of an image of `len` bytes, of which there are `last`, is short.
fn is_short(assembly: &Progress, len: u32, last: u32) -> bool
    requires sound { IsSound assembly.now }
    requires last { last ≡ payload_count assembly.now.payload_size len }
    ensures { (ks : List StreamPacket) → IsAssembly assembly.now ks
        → result ≡ has_short_to assembly.now.payload_size len last ks }
{
    let rest = u64::from(len).saturating_sub(start_of_payload(assembly.payload_size, last));
    !are_long(last, rest, assembly.shortest)
}

/// The reasons that hold of an image of `len` bytes.
fn reasons_of(assembly: &Progress, len: u32) -> Reasons
    requires sound { IsSound assembly.now }
    requires len { len ≤ max_buffer_size }
    ensures { (ks : List StreamPacket) → IsAssembly assembly.now ks
        → result ≡ reasons_with assembly.now.payload_size assembly.now.size len ks }
{
    let last = last_payload(assembly.payload_size, len);
    Reasons {
        no_leader: false,
        small: assembly.size < len,
        no_trailer: !is_trailer_id(assembly.trailer, last + 1),
        no_payload: lacks_payload(assembly, last),
        short: is_short(assembly, len, last),
    }
}

/// Why the image isn't whole.
fn reasons_in(assembly: &Progress) -> Reasons
    requires { IsSound assembly.now }
    ensures { (ks : List StreamPacket) → IsAssembly assembly.now ks
        → result ≡ reasons assembly.now.payload_size assembly.now.size ks }
{
    match extent(assembly) {
        Some(len) => reasons_of(assembly, len),
        None => Reasons {
            no_leader: true,
            small: false,
            no_trailer: assembly.trailer.is_none(),
            no_payload: false,
            short: false,
        },
    }
}

/// Which packet ids have no kept packet.
fn lost_in(assembly: &Progress) -> Lost
    requires sound { IsSound assembly.now }
    requires stands { (ks : List StreamPacket) × IsAssembly assembly.now ks }
    ensures { (ks : List StreamPacket) → IsAssembly assembly.now ks
        → result ≡ lost_of (lost assembly.now.payload_size ks) }
{
    match top(assembly) {
        Some(top) => lost_to(&assembly.kept, top),
        None => none_lost(),
    }
}

/// The account of the block.
pub(crate) fn account_of(assembly: &Progress) -> Account
    requires sound { IsSound assembly.now }
    requires stands { (ks : List StreamPacket) × IsAssembly assembly.now ks }
    ensures { (ks : List StreamPacket) → IsAssembly assembly.now ks
        → result ≡ account_of assembly.now.payload_size assembly.now.size ks }
{
    Account {
        complete: completes(assembly),
        kept: assembly.count,
        why: reasons_in(assembly),
        lost: lost_in(assembly),
        leader: assembly.leader,
        lines: lines_of(assembly.trailer),
    }
}

/// What became of the block, as it retires for this cause. A whole image lacks nothing, so nothing is looked for.
pub(crate) fn block_account(assembly: &Progress, cause: Cause) -> BlockAccount
    requires sound { IsSound assembly.now }
    requires stands { (ks : List StreamPacket) × IsAssembly assembly.now ks }
    ensures { (ks : List StreamPacket) → IsAssembly assembly.now ks
        → result ≡ block_account cause assembly.now.payload_size assembly.now.size ks }
{
    if completes(assembly) {
        return BlockAccount {
            cause,
            lost: none_lost(),
            why: Reasons::none(),
        };
    }
    BlockAccount {
        cause,
        lost: lost_in(assembly),
        why: reasons_in(assembly),
    }
}
