//! The record of a block.

ghost use Rattle.std.specs.Prelude.{◌≡◌, ◌≤◌, List};
ghost use Rattle.stream_packets.specs.Packets.{StreamPacket};
ghost use Rattle.block_image.specs.Infos.{info_of};
ghost use Rattle.block_image.specs.Image.{is_larger, image_len, leader_in, lines_in, extent_in};
ghost use Rattle.missing_ranges.specs.Accounts.{retired_record};
ghost use Rattle.block_assembly.specs.Assembly.{IsAssembly, IsSound};

use crate::account::block_account;
use crate::completing::{completes, extent, lines_of};
use crate::progress::Progress;
use block_image::info_of;
use gev_types::{Cause, ImageInfo, Record};

/// Whether the block has more bytes than the buffer.
fn is_larger(assembly: &Progress) -> bool
    requires { IsSound assembly.now }
    ensures { (ks : List StreamPacket) → IsAssembly assembly.now ks
        → result ≡ is_larger assembly.now.payload_size assembly.now.size ks (extent_in ks) }
{
    match extent(assembly) {
        Some(len) => assembly.size < len,
        None => assembly.past,
    }
}

/// The length of the image in the buffer, in bytes.
fn image_len(assembly: &Progress) -> u32
    requires { IsSound assembly.now }
    ensures value { (ks : List StreamPacket) → IsAssembly assembly.now ks
        → result ≡ image_len assembly.now.payload_size assembly.now.size ks (extent_in ks) }
    ensures within { result ≤ assembly.now.size }
{
    match extent(assembly) {
        Some(len) => len.min(assembly.size),
        None => assembly.end,
    }
}

/// What is known of the image, by the leader and the trailer that were kept.
fn info(assembly: &Progress) -> Option<ImageInfo>
    ensures { (ks : List StreamPacket) → IsAssembly assembly.now ks
        → result ≡ info_of (leader_in ks) (lines_in ks) }
{
    info_of(assembly.leader, lines_of(assembly.trailer))
}

/// What is known of the block, as it retires for this cause.
pub(crate) fn record(assembly: &Progress, cause: Cause) -> Record
    requires sound { IsSound assembly.now }
    requires stands { (ks : List StreamPacket) × IsAssembly assembly.now ks }
    ensures value { (ks : List StreamPacket) → IsAssembly assembly.now ks
        → result ≡ retired_record cause assembly.now.payload_size assembly.now.block assembly.now.size ks }
    ensures data_len { result.data_len ≤ assembly.now.size }
    ensures filled { result.filled ≤ assembly.now.size }
{
    Record {
        block: assembly.block,
        complete: completes(assembly),
        larger: is_larger(assembly),
        has_leader: assembly.leader.is_some(),
        data_len: image_len(assembly),
        filled: assembly.placed,
        image: info(assembly),
        account: Some(block_account(assembly, cause)),
    }
}
