ghost use Rattle.std.specs.Prelude.{◌≡◌, ℕ, ◌+◌, ◌≤◌, ◌<◌, List, [], ◌∷◌, ◌++◌, length, IfSome};
ghost use Rattle.stream_packets.specs.Packets.{StreamPacket, head_of};
ghost use Rattle.gvsp_wire.specs.View.{view};
ghost use Rattle.block_image.specs.Kept.{kept, has_id};
ghost use Rattle.block_image.specs.Image.{image};
ghost use Rattle.block_image.specs.Sizes.{IsPayloadSize};
ghost use Rattle.missing_ranges.specs.Accounts.{retired_image};
ghost use Rattle.missing_ranges.specs.Missing.{top_of, has_gone};
ghost use Rattle.packet_bitmap.specs.Bits.{has};
ghost use Rattle.block_assembly.specs.PacketIds.{packet_ids};
ghost use Rattle.block_assembly.specs.Assembly.{AssemblyStands, block_of};
ghost use Rattle.block_assembly.specs.Accounts.{account_of};
ghost use Rattle.block_assembly.specs.Verdicts.{IsRead, verdict_of};

use crate::account::{Account, account_of};
use crate::completing::{completes, top};
use crate::judging::judge;
use crate::keeping::act;
use crate::progress::Progress;
use crate::recording::record;
use crate::verdict::Verdict;
use crate::zeroing::zero_missing;
use gev_types::{Buf, Cause};
use gvsp_wire::Packet;
use packet_bitmap::Bitmap;
use std::marker::Model;

/// One block on its way into its buffer.
///
/// Contracts see how far it has come. It always stands for some packets of its block.
#[derive(Drop)]
pub struct Assembly {
    progress: Progress,
}

impl Model for Assembly {
    ghost use Rattle.block_assembly.specs.declared.progress.Progress.{Progress};
    ghost use Rattle.block_assembly.specs.Assembly.{StandsForSome};

    ghost Value = { Progress };

    ghost view = { λ a. a.progress };

    ghost invariant = { λ a. StandsForSome a.progress };
}

impl Assembly {
    /// An assembly of this block that has taken nothing, over a buffer, whatever lies in it, and two bitmaps, which it
    /// clears. `payload_size` is the most bytes of a payload packet.
    pub fn start(buf: Buf, kept: Bitmap, refused: Bitmap, block: u64, payload_size: u32) -> Assembly
        requires payload_size { IsPayloadSize payload_size }
        requires kept { length kept ≡ packet_ids }
        requires refused { length refused ≡ packet_ids }
        ensures stands { AssemblyStands result payload_size block (length buf.bytes) [] }
        ensures of_block { block_of result ≡ block }
    {
        let mut kept = kept;
        let mut refused = refused;
        let size = buf.bytes().len() as u32;
        kept.reset();
        refused.reset();
        let progress = Progress {
            payload_size,
            block,
            size,
            buf,
            kept,
            refused,
            leader: None,
            trailer: None,
            count: 0,
            highest: None,
            shortest: None,
            placed: 0,
            end: 0,
            past: false,
        };
        Assembly { progress }
    }

    /// Takes a packet of the block, and says what becomes of it.
    pub fn accept(&mut self, packet: &Packet<'_>) -> Verdict
        requires read { IsRead (view packet.now) }
        requires of_block { (head_of (view packet.now)).block ≡ block_of self.old }
        ensures verdict { (p b size : ℕ) (heard : List StreamPacket) → AssemblyStands self.old p b size heard
            → result ≡ verdict_of p b heard (view packet.now) }
        ensures stands { (p b size : ℕ) (heard : List StreamPacket) → AssemblyStands self.old p b size heard
            → AssemblyStands self.new p b size (heard ++ view packet.now ∷ []) }
        ensures same_block { block_of self.new ≡ block_of self.old }
    {
        let verdict = judge(&self.progress, packet);
        act(&mut self.progress, verdict, packet);
        verdict
    }

    /// Whether the whole image is in the buffer.
    pub fn is_complete(&self) -> bool
        ensures { (p b size : ℕ) (heard : List StreamPacket) → AssemblyStands self.now p b size heard
            → result ≡ (image p b size heard).rec.complete }
    {
        completes(&self.progress)
    }

    /// The last id up to which packets may be missing: the trailer's where the leader tells it, else the
    /// highest that was kept. None where nothing was kept.
    pub fn top(&self) -> Option<u32>
        ensures top { (p b size : ℕ) (heard : List StreamPacket) → AssemblyStands self.now p b size heard
            → result ≡ top_of p (kept p b heard) }
        ensures in_range { IfSome result (λ top. top < packet_ids) }
    {
        top(&self.progress)
    }

    /// What is told of the block beside its image: how many packets were kept, why the image isn't whole,
    /// and which packets were lost.
    pub fn account(&self) -> Account
        ensures { (p b size : ℕ) (heard : List StreamPacket) → AssemblyStands self.now p b size heard
            → result ≡ account_of p size (kept p b heard) }
    {
        account_of(&self.progress)
    }

    /// The ids of the packets that were kept.
    pub fn kept(&self) -> &Bitmap
        ensures ids { (p b size : ℕ) (heard : List StreamPacket) → AssemblyStands self.now p b size heard
            → (id : ℕ) → has result.now id ≡ has_id id (kept p b heard) }
        ensures wide { length result.now ≡ packet_ids }
    {
        &self.progress.kept
    }

    /// The ids of the packets that the camera can't send again, by its notices.
    pub fn refused(&self) -> &Bitmap
        ensures ids { (p b size : ℕ) (heard : List StreamPacket) → AssemblyStands self.now p b size heard
            → (id : ℕ) → id < packet_ids → has result.now id ≡ has_gone id heard }
        ensures wide { length result.now ≡ packet_ids }
    {
        &self.progress.refused
    }

    /// The buffer with the block's image and record, and the two bitmaps for another block. The block retires for
    /// this cause, which its record tells.
    pub fn finish(self, cause: Cause) -> (Buf, Bitmap, Bitmap)
        ensures image { (p b size : ℕ) (heard : List StreamPacket) → AssemblyStands self p b size heard
            → result.0 ≡ retired_image cause p b size heard }
        ensures kept { length result.1 ≡ packet_ids }
        ensures refused { length result.2 ≡ packet_ids }
    {
        let Assembly { progress } = self;
        let rec = record(&progress, cause);
        let mut buf = progress.buf;
        zero_missing(&mut buf, &progress.kept, progress.payload_size);
        buf.set_rec(rec);
        (buf, progress.kept, progress.refused)
    }
}
