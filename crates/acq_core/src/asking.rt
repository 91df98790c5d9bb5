//! What one open block asks for again.

ghost use Rattle.std.specs.Prelude.{◌≡◌, ℕ, ◌==◌, ◌&&◌, ◌||◌, ◌-◌, nat_lt, nat_le, [], List, take};
ghost use Rattle.stream_packets.specs.Packets.{StreamPacket};
ghost use Rattle.missing_ranges.specs.Missing.{missing};
ghost use Rattle.block_assembly.specs.Assembly.{AssemblyStands};
ghost use Rattle.acquisition_machine.specs.Blocks.{Open, ranges_asked};
ghost use Rattle.acq_core.specs.Standing.{SlotStands, IsSlot};

use crate::requests;
use crate::slot::{Hold, Slot};
use acquisition_machine::AcqConfig;
use arrayvec::ArrayVec;
use block_assembly::Assembly;

/// Ranges of packet ids, each by its first and its last.
pub(crate) type Ranges = ArrayVec<(u32, u32), 8>;

/// Whether a block with a buffer has rounds left, and it is long enough ago that a packet was kept of it
/// and that it asked.
fn is_time(slot: &Slot, config: AcqConfig, moment: u64) -> bool
    ensures { result ≡ (nat_lt slot.now.rounds config.rounds && nat_le config.age (moment - slot.now.last)
        && (slot.now.rounds == 0 || nat_le config.age (moment - slot.now.round_at))) }
{
    let age = u64::from(config.age);
    slot.rounds < config.rounds
        && age <= moment.saturating_sub(slot.last)
        && (slot.rounds == 0 || age <= moment.saturating_sub(slot.round_at))
}

/// The first eight missing ranges of a block.
fn missing(assembly: &Assembly, out: &mut Ranges)
    ensures { (p b size : ℕ) (heard : List StreamPacket) → AssemblyStands assembly.now p b size heard
        → out.new.items ≡ take 8 (missing p b heard) }
{
    match assembly.top() {
        Some(top) => requests(assembly.kept(), assembly.refused(), top, out),
        None => out.clear(),
    }
}

/// The ranges that the block asks for at this moment.
pub(crate) fn ranges(slot: &Slot, config: AcqConfig, moment: u64, out: &mut Ranges)
    requires { IsSlot config.p slot.now }
    ensures { (o : Open) → SlotStands config.p slot.now o → out.new.items ≡ ranges_asked config moment o }
{
    if !is_time(slot, config, moment) {
        out.clear();
        return;
    }
    match &slot.hold {
        Hold::Without(_) => out.clear(),
        Hold::With(_, assembly) => missing(assembly, out),
    }
}
