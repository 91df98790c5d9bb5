//! The outcome of a claim opens a block.

ghost use Rattle.std.specs.Prelude.{◌≡◌, ℕ, ◌+◌, ◌≤◌, ◌<◌, ◌==◌, nat_lt, not, List, [], length, insert, position, Some, IsSome};
ghost use Rattle.std.specs.List.{AllByRecursion, prefix_len};
ghost use Rattle.std.specs.Vec.{vec_len, vec_capacity};
ghost use Rattle.block_image.specs.Sizes.{IsPayloadSize};
ghost use Rattle.acquisition_machine.specs.declared.counts.Counts.{Counts as CountsOf};
ghost use Rattle.acquisition_machine.specs.Machine.{State, count_given, claimed, step};
ghost use Rattle.acquisition_machine.specs.Sound.{IsSound};
ghost use Rattle.acq_core.specs.Standing.{HoldsFor, IsWide, Acts, ActsForSome, HasRoom, HasPlace, capped};
ghost use Rattle.acq_core.specs.Giving.{given_as};
ghost use Rattle.acq_core.specs.Turning.{Gives};

use crate::slot::{Hold, Slot, Spare};
use crate::window::Window;
use acquisition_machine::Counts;
use block_assembly::Assembly;
use gev_types::Buf;

/// What the block is given.
fn hold(spare: Spare, block: u64, p: u32, answer: Option<(u8, Buf)>) -> Hold
    requires payload_size { IsPayloadSize p }
    requires wide { IsWide spare }
    ensures { HoldsFor p block result (given_as answer) [] }
{
    match answer {
        None => Hold::Without(spare),
        Some((place, buf)) => {
            let assembly = Assembly::start(buf, spare.kept, spare.refused, block, p);
            Hold::With(place, assembly)
        }
    }
}

/// A block without a buffer is an underrun.
fn count_underrun(counts: &mut Counts, answer: &Option<(u8, Buf)>)
    ensures { (n : CountsOf) → counts.old ≡ capped n → counts.new ≡ capped (count_given (given_as answer.now) n) }
{
    match answer {
        None => counts.underrun = counts.underrun.saturating_add(1),
        Some(_) => {}
    }
}

/// The bitmaps for one more block.
fn next_spare(spare: &mut Vec<Spare>) -> Spare
    requires some { 0 < vec_len spare.old }
    requires wide { AllByRecursion IsWide spare.old.items }
    ensures wide { IsWide result }
    ensures rest { AllByRecursion IsWide spare.new.items }
    ensures fewer { vec_len spare.new + 1 ≡ vec_len spare.old }
    ensures room { vec_capacity spare.new ≡ vec_capacity spare.old }
{
    match spare.pop() {
        Some(pair) => pair,
        None => unreachable!(),
    }
}

/// Where the first block with a higher id stands.
fn first_above(slots: &[Slot], block: u64) -> Option<usize>
    ensures { result ≡ position (λ x. nat_lt block x.block) slots.now }
{
    slots.iter().position(|slot| block < slot.block)
}

/// The place of a block that isn't open: before the first with a higher id.
fn place_for(slots: &[Slot], block: u64) -> usize
    ensures place { result ≡ prefix_len (λ x. not (nat_lt block x.block)) slots.now }
    ensures within { result ≤ length slots.now }
{
    match first_above(slots, block) {
        Some(at) => at,
        None => slots.len(),
    }
}

/// Puts the slot at this place.
fn put_in(slots: &mut Vec<Slot>, at: usize, slot: Slot)
    requires within { at ≤ vec_len slots.old }
    requires room { vec_len slots.old < vec_capacity slots.old }
    ensures slots { slots.new.items ≡ insert slots.old.items at slot }
    ensures more { vec_len slots.new ≡ vec_len slots.old + 1 }
    ensures room { vec_capacity slots.old ≤ vec_capacity slots.new }
{
    match slots.insert(at, slot) {
        Ok(()) => {}
        Err(_) => unreachable!(),
    }
}

/// Opens this block, for which a buffer was claimed.
fn open(window: &mut Window, block: u64, answer: Option<(u8, Buf)>)
    requires acts { ActsForSome window.old }
    requires room { HasRoom window.old }
    requires asked { window.old.asked ≡ Some block }
    requires place { HasPlace window.old }
    requires forgotten { vec_len window.old.ends ≡ 0 }
    ensures gives { (s : State) → Acts window.old s → IsSound window.old.config s
        → Gives window.old window.new (step window.old.config s (claimed (given_as answer))) }
    ensures room { HasRoom window.new }
{
    count_underrun(&mut window.counts, &answer);
    let spare = next_spare(&mut window.spare);
    let slot = Slot {
        block,
        hold: hold(spare, block, window.config.p, answer),
        last: window.moment,
        rounds: 0,
        round_at: 0,
    };
    let at = place_for(window.slots.as_slice(), block);
    put_in(&mut window.slots, at, slot);
    window.asked = None;
}

/// The outcome of the claim: a buffer and its place, or none.
pub(crate) fn give(window: &mut Window, answer: Option<(u8, Buf)>)
    requires acts { ActsForSome window.old }
    requires room { HasRoom window.old }
    requires asked { IsSome window.old.asked }
    requires place { HasPlace window.old }
    requires forgotten { vec_len window.old.ends ≡ 0 }
    ensures gives { (s : State) → Acts window.old s → IsSound window.old.config s
        → Gives window.old window.new (step window.old.config s (claimed (given_as answer))) }
    ensures room { HasRoom window.new }
{
    match window.asked {
        Some(block) => open(window, block, answer),
        None => unreachable!(),
    }
}
