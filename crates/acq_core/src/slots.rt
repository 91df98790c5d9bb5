//! What is asked of one open block.

ghost use Rattle.std.specs.Prelude.{◌≡◌, ◌+◌, ◌≤◌, ◌<◌, ◌++◌};
ghost use Rattle.std.specs.Vec.{vec_len, vec_capacity};
ghost use Rattle.std.specs.List.{AllByRecursion};
ghost use Rattle.stream_packets.specs.Packets.{head_of};
ghost use Rattle.gvsp_wire.specs.View.{view};
ghost use Rattle.block_assembly.specs.Verdicts.{IsRead};
ghost use Rattle.acquisition_machine.specs.Blocks.{Open, hearing, has_whole, due, given_back};
ghost use Rattle.acq_core.specs.Standing.{HoldsFor, IsHeld, SlotStands, IsSlot, IsWide};
ghost use Rattle.acq_core.specs.Ending.{cause_if};
ghost use Rattle.acq_core.specs.Hearing.{need_of_verdict, need_without, need_in, heard_in};

use crate::slot::{Hold, Slot, Spare};
use acquisition_machine::{AcqConfig, Need, Retired, Why};
use block_assembly::Verdict;
use block_image::does_fit;
use gev_types::Cause;
use gvsp_wire::Packet;

/// Whether the block's image is whole in its buffer.
fn is_whole(slot: &Slot, p: u32) -> bool
    requires { IsSlot p slot.now }
    ensures { (o : Open) → SlotStands p slot.now o → result ≡ has_whole p o o.given }
{
    match &slot.hold {
        Hold::Without(_) => false,
        Hold::With(_, assembly) => assembly.is_complete(),
    }
}

/// Why the block retires at this moment, if it does.
pub(crate) fn due_cause(slot: &Slot, config: AcqConfig, moment: u64) -> Option<Cause>
    requires { IsSlot config.p slot.now }
    ensures { (o : Open) → SlotStands config.p slot.now o → result ≡ cause_if (due config moment o) }
{
    if is_whole(slot, config.p) {
        return Some(Cause::Complete);
    }
    if u64::from(config.timeout) <= moment.saturating_sub(slot.last) {
        return Some(Cause::Old);
    }
    None
}

/// The buffer of a block that retires for this cause, with what the block gave, joins the fills, if it has one, and its bitmaps wait for
/// another block.
pub(crate) fn release(
    hold: Hold,
    p: u32,
    cause: Cause,
    fills: &mut Vec<Retired>,
    spare: &mut Vec<Spare>,
)
    requires stands { IsHeld p hold }
    requires fills { vec_len fills.old < vec_capacity fills.old }
    requires spare { vec_len spare.old < vec_capacity spare.old }
    ensures fills { (o : Open) → HoldsFor p o.block hold o.given o.heard → fills.new.items ≡ fills.old.items ++ given_back p cause o o.given }
    ensures few { vec_len fills.new ≤ vec_len fills.old + 1 }
    ensures fills_room { vec_capacity fills.new ≡ vec_capacity fills.old }
    ensures more { vec_len spare.new ≡ vec_len spare.old + 1 }
    ensures spare_room { vec_capacity spare.new ≡ vec_capacity spare.old }
    ensures wide { AllByRecursion IsWide spare.old.items → AllByRecursion IsWide spare.new.items }
{
    match hold {
        Hold::Without(pair) => spare.push_reserved(pair),
        Hold::With(place, assembly) => {
            let (buf, kept, refused) = assembly.finish(cause);
            fills.push_reserved(Retired { place, buf });
            spare.push_reserved(Spare { kept, refused });
        }
    }
}

/// The answer to a packet of a block without a buffer.
fn starved(p: u32, packet: &Packet<'_>) -> Need
    ensures { result ≡ need_without p (view packet.now) }
{
    if packet.is_notice() {
        Need::Ignored(Why::Notice)
    } else if !does_fit(p, packet) {
        Need::Ignored(Why::Misfit)
    } else {
        Need::Ignored(Why::Starved)
    }
}

/// The answer to a packet of a block with a buffer.
fn need(verdict: Verdict) -> Need
    ensures { result ≡ need_of_verdict verdict }
{
    match verdict {
        Verdict::Kept => Need::Done,
        Verdict::Repeat => Need::Ignored(Why::Repeat),
        Verdict::Misfit => Need::Ignored(Why::Misfit),
        Verdict::Notice => Need::Ignored(Why::Notice),
    }
}

/// Tells what the slot holds a packet of its block; gives the answer to it.
fn tell_hold(slot: &mut Slot, p: u32, packet: &Packet<'_>) -> Need
    requires stands { IsSlot p slot.old }
    requires read { IsRead (view packet.now) }
    requires of_block { (head_of (view packet.now)).block ≡ slot.old.block }
    ensures need { (o : Open) → SlotStands p slot.old o → result ≡ need_in p o (view packet.now) }
    ensures stands { (o : Open) → SlotStands p slot.old o → SlotStands p slot.new (hearing (view packet.now) o) }
{
    match &mut slot.hold {
        Hold::Without(_) => starved(p, packet),
        Hold::With(_, assembly) => need(assembly.accept(packet)),
    }
}

/// Tells the slot a packet of its block at this moment; gives the answer to it.
pub(crate) fn tell_slot(slot: &mut Slot, p: u32, packet: &Packet<'_>, moment: u64) -> Need
    requires stands { IsSlot p slot.old }
    requires read { IsRead (view packet.now) }
    requires of_block { (head_of (view packet.now)).block ≡ slot.old.block }
    ensures need { (o : Open) → SlotStands p slot.old o → result ≡ need_in p o (view packet.now) }
    ensures stands { (o : Open) → SlotStands p slot.old o → SlotStands p slot.new (heard_in moment p o (view packet.now)) }
{
    let need = tell_hold(slot, p, packet);
    if need == Need::Done {
        slot.last = moment;
    }
    need
}
