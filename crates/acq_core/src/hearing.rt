//! What a datagram makes of the receiver's state.

ghost use Rattle.std.specs.Prelude.{◌≡◌, ◌≢◌, ℕ, ◌+◌, ◌≤◌, ◌<◌, ◌==◌, nat_lt, true, false, not, position, Some, None, Option, Result, Ok};
ghost use Rattle.std.specs.Vec.{vec_len};
ghost use Rattle.stream_packets.specs.Packets.{head_of};
ghost use Rattle.gvsp_wire.specs.View.{view, seen};
ghost use Rattle.block_assembly.specs.Verdicts.{IsRead};
ghost use Rattle.acquisition_machine.specs.Blocks.{Open};
ghost use Rattle.acquisition_machine.specs.Machine.{State, bound, shown, is_full, displaced_of, rest_of, open_at, ignored, wants, hears_packet, hears, datagram, step};
ghost use Rattle.acquisition_machine.specs.Sound.{IsSound};
ghost use Rattle.acq_core.specs.Standing.{Acts, ActsForSome, AreSlots, HasRoom, floor_of};
ghost use Rattle.acq_core.specs.Hearing.{need_in};
ghost use Rattle.acq_core.specs.Retiring.{ChangesSlots, RetiresAll};
ghost use Rattle.acq_core.specs.Turning.{Answers, turn_of, with_heard};

use crate::counting::count;
use crate::retiring::{retire_first, settle};
use crate::slot::Slot;
use crate::slots::tell_slot;
use crate::window::Window;
use acquisition_machine::{Need, Why};
use block_image::does_fit;
use gev_types::Cause;
use gvsp_wire::{Packet, parse};

/// Nothing of the datagram is kept.
fn ignore(window: &mut Window, why: Why) -> Need
    requires { HasRoom window.old }
    ensures answers { (s : State) → Acts window.old s → Answers window.old window.new result (ignored why s) }
    ensures room { HasRoom window.new }
{
    count(&mut window.counts, why);
    Need::Ignored(why)
}

/// The packet was noted in its block, and is answered that.
fn answer(window: &mut Window, need: Need) -> Need
    requires slots { AreSlots window.old }
    requires room { HasRoom window.old }
    requires no_buffer { (b : ℕ) → need ≢ Need.Buffer b }
    ensures answers { (s : State) → Acts window.old s
        → Answers window.old window.new result (turn_of window.old.config need s) }
    ensures room { HasRoom window.new }
{
    match need {
        Need::Buffer(_) => need,
        Need::Done => {
            settle(window);
            need
        }
        Need::Ignored(why) => ignore(window, why),
    }
}

/// Tells the slot at this place the packet of its block.
fn tell_at(window: &mut Window, at: usize, packet: &Packet<'_>) -> Need
    requires acts { ActsForSome window.old }
    requires room { HasRoom window.old }
    requires read { IsRead (view packet.now) }
    requires found { position (λ x. x.block == (head_of (view packet.now)).block) window.old.slots.items ≡ Some at }
    ensures need { (s : State) (o : Open) → Acts window.old s → IsSound window.old.config s
        → open_at (head_of (view packet.now)).block s.opens ≡ Some o
        → result ≡ need_in window.old.config.p o (view packet.now) }
    ensures acts { (s : State) (o : Open) → Acts window.old s → IsSound window.old.config s
        → open_at (head_of (view packet.now)).block s.opens ≡ Some o
        → Acts window.new (with_heard window.old.config.p (view packet.now) o s) }
    ensures rest { window.new ≡ record window.old { slots = window.new.slots } }
    ensures no_buffer { (b : ℕ) → result ≢ Need.Buffer b }
    ensures slots { AreSlots window.new }
    ensures room { HasRoom window.new }
{
    let p = window.config.p;
    let moment = window.moment;
    tell_slot(&mut window.slots[at], p, packet, moment)
}

/// In a full window the lowest block gives its place.
fn make_room(window: &mut Window)
    requires acts { ActsForSome window.old }
    requires room { HasRoom window.old }
    ensures retires { (s : State) → Acts window.old s
        → RetiresAll window.old window.new
        (displaced_of (is_full window.old.config s.opens) s.opens) (rest_of (is_full window.old.config s.opens) s.opens) }
    ensures changes { ChangesSlots window.old window.new }
    ensures room { HasRoom window.new }
{
    if window.slots.len() < usize::from(window.config.window) {
        return;
    }
    retire_first(window, Cause::Displaced);
}

/// A buffer is wanted for a block that isn't open.
fn want(window: &mut Window, block: u64) -> Need
    requires acts { ActsForSome window.old }
    requires room { HasRoom window.old }
    ensures answers { (s : State) → Acts window.old s → Answers window.old window.new result (wants window.old.config block s) }
    ensures room { HasRoom window.new }
{
    make_room(window);
    window.asked = Some(block);
    Need::Buffer(block)
}

/// Where the open block with this id stands.
pub(crate) fn find(slots: &[Slot], block: u64) -> Option<usize>
    ensures { result ≡ position (λ x. x.block == block) slots.now }
{
    slots.iter().position(|slot| slot.block == block)
}

/// The lowest block that packets may have, or None where block ids are used up.
fn bound(window: &Window) -> Option<u64>
    ensures { (s : State) → Acts window.now s → floor_of result ≡ bound window.now.config s }
{
    if window.slots.is_empty() {
        return window.floor;
    }
    if window.slots.len() < usize::from(window.config.window) {
        return window.floor;
    }
    Some(window.slots[0].block)
}

/// Whether the block lies below the bound.
fn is_late(bound: Option<u64>, block: u64) -> bool
    ensures { result ≡ nat_lt block (floor_of bound) }
{
    match bound {
        Some(bound) => block < bound,
        None => true,
    }
}

/// A packet of the open block whose slot stands at this place.
fn hear_open(window: &mut Window, at: usize, packet: &Packet<'_>) -> Need
    requires acts { ActsForSome window.old }
    requires room { HasRoom window.old }
    requires read { IsRead (view packet.now) }
    requires found { position (λ x. x.block == (head_of (view packet.now)).block) window.old.slots.items ≡ Some at }
    ensures answers { (s : State) (o : Open) → Acts window.old s → IsSound window.old.config s
        → open_at (head_of (view packet.now)).block s.opens ≡ Some o
        → Answers window.old window.new result (hears_packet window.old.config (view packet.now) (Some o) s) }
    ensures room { HasRoom window.new }
{
    let need = tell_at(window, at, packet);
    answer(window, need)
}

/// A packet of a block that isn't open.
fn hear_new(window: &mut Window, packet: &Packet<'_>) -> Need
    requires acts { ActsForSome window.old }
    requires room { HasRoom window.old }
    ensures answers { (s : State) → Acts window.old s
        → Answers window.old window.new result (hears_packet window.old.config (view packet.now) None s) }
    ensures room { HasRoom window.new }
{
    if packet.is_notice() {
        return ignore(window, Why::Notice);
    }
    if !does_fit(window.config.p, packet) {
        return ignore(window, Why::Misfit);
    }
    want(window, packet.head().block)
}

/// Why a packet below this bound is ignored.
fn late(bound: Option<u64>) -> Why
    ensures { (b : ℕ) → floor_of bound ≡ b → result ≡ Why.Late (shown b) }
{
    Why::Late(bound)
}

/// A packet at or above the bound.
fn hear_packet(window: &mut Window, packet: &Packet<'_>) -> Need
    requires acts { ActsForSome window.old }
    requires room { HasRoom window.old }
    requires read { IsRead (view packet.now) }
    ensures answers { (s : State) → Acts window.old s → IsSound window.old.config s
        → Answers window.old window.new result
        (hears_packet window.old.config (view packet.now) (open_at (head_of (view packet.now)).block s.opens) s) }
    ensures room { HasRoom window.new }
{
    match find(window.slots.as_slice(), packet.head().block) {
        Some(at) => hear_open(window, at, packet),
        None => hear_new(window, packet),
    }
}

/// A packet of the stream.
fn listen(window: &mut Window, packet: &Packet<'_>) -> Need
    requires acts { ActsForSome window.old }
    requires room { HasRoom window.old }
    requires read { IsRead (view packet.now) }
    ensures answers { (s : State) → Acts window.old s → IsSound window.old.config s
        → Answers window.old window.new result (hears window.old.config (Ok (view packet.now)) s) }
    ensures room { HasRoom window.new }
{
    let bound = bound(window);
    if is_late(bound, packet.head().block) {
        return ignore(window, late(bound));
    }
    hear_packet(window, packet)
}

/// A datagram.
pub(crate) fn hear(window: &mut Window, bytes: &[u8]) -> Need
    requires acts { ActsForSome window.old }
    requires room { HasRoom window.old }
    ensures answers { (s : State) → Acts window.old s → IsSound window.old.config s
        → Answers window.old window.new result (step window.old.config s (datagram bytes.now)) }
    ensures room { HasRoom window.new }
{
    window.asked = None;
    match parse(bytes) {
        Ok(packet) => listen(window, &packet),
        Err(error) => ignore(window, Why::Foreign(error)),
    }
}
