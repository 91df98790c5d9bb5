//! A moment: old blocks retire, and the others ask for what is missing.

ghost use Rattle.std.specs.Prelude.{◌≡◌, ℕ, ◌+◌, ◌*◌, ◌≤◌, ◌<◌, List, [], ◌++◌, length, map};
ghost use Rattle.std.specs.Vec.{vec_len, vec_capacity};
ghost use Rattle.acquisition_machine.specs.Blocks.{Open, ranges_asked, after_asking, after_round};
ghost use Rattle.acquisition_machine.specs.Machine.{State, requests_for, number_after, tick as moment_input, step};
ghost use Rattle.acq_core.specs.Standing.{SlotStands, IsSlot, SlotsStand, AreSlots, Acts, ActsForSome, HasRoom, asked_of};
ghost use Rattle.acq_core.specs.Rounds.{AsksAll};
ghost use Rattle.acq_core.specs.Turning.{Gives};

use crate::asked::Asked;
use crate::asking::{Ranges, ranges};
use crate::counting::next;
use crate::retiring::settle;
use crate::slot::Slot;
use crate::window::Window;
use acquisition_machine::AcqConfig;
use arrayvec::ArrayVec;
use gvcp_wire::Resend;

/// Adds a request for each of these ranges of the block, with the numbers from this one on, and gives
/// the number after them.
fn ask_for(requests: &mut Vec<Asked>, from: u16, block: u64, ranges: &[(u32, u32)]) -> u16
    requires room { vec_len requests.old + length ranges.now ≤ vec_capacity requests.old }
    ensures requests { requests.new.items ≡ requests.old.items ++ map asked_of (requests_for from block ranges.now) }
    ensures number { result ≡ number_after from ranges.now }
    ensures more { vec_len requests.new ≡ vec_len requests.old + length ranges.now }
    ensures capacity { vec_capacity requests.new ≡ vec_capacity requests.old }
{
    let mut number = from;
    for range in ranges {
        let resend = Resend {
            channel: 0,
            first: range.0,
            last: range.1,
            block,
        };
        requests.push_reserved(Asked { number, resend });
        number = next(number);
    }
    number
}

/// The block's round is done, if it asks for these ranges.
fn advance(slot: &mut Slot, config: AcqConfig, moment: u64, found: &[(u32, u32)])
    requires { (o : Open) × SlotStands config.p slot.old o × (found.now ≡ ranges_asked config moment o) }
    ensures { (o : Open) → SlotStands config.p slot.old o → SlotStands config.p slot.new (after_asking moment o found.now) }
{
    if found.is_empty() {
        return;
    }
    slot.rounds += 1;
    slot.round_at = moment;
}

/// One block's round: adds its requests, with the numbers from this one on, and gives the number after
/// them.
fn ask(
    slot: &mut Slot,
    config: AcqConfig,
    moment: u64,
    number: u16,
    requests: &mut Vec<Asked>,
) -> u16
    requires stands { IsSlot config.p slot.old }
    requires room { vec_len requests.old + 8 ≤ vec_capacity requests.old }
    ensures stands { (o : Open) → SlotStands config.p slot.old o → SlotStands config.p slot.new (after_round config moment o) }
    ensures requests { (o : Open) → SlotStands config.p slot.old o
        → requests.new.items ≡ requests.old.items ++ map asked_of (requests_for number o.block (ranges_asked config moment o)) }
    ensures number { (o : Open) → SlotStands config.p slot.old o → result ≡ number_after number (ranges_asked config moment o) }
    ensures few { vec_len requests.new ≤ vec_len requests.old + 8 }
    ensures capacity { vec_capacity requests.new ≡ vec_capacity requests.old }
{
    let mut found: Ranges = ArrayVec::new();
    ranges(slot, config, moment, &mut found);
    advance(slot, config, moment, found.as_slice());
    ask_for(requests, number, slot.block, found.as_slice())
}

/// Each block's round, the lowest first.
fn ask_all(window: &mut Window)
    requires slots { AreSlots window.old }
    requires room { HasRoom window.old }
    requires drained { vec_len window.old.requests ≡ 0 }
    ensures asks { (os : List Open) → SlotsStand window.old.config.p window.old.slots.items os → AsksAll window.old window.new os }
    ensures rest { window.new ≡ record window.old { slots = window.new.slots; number = window.new.number; requests = window.new.requests } }
    ensures room { HasRoom window.new }
{
    let mut at = 0;
    while at < window.slots.as_slice().len() {
        let number = window.number;
        window.number = ask(
            &mut window.slots[at],
            window.config,
            window.moment,
            number,
            &mut window.requests,
        );
        at += 1;
    }
}

/// The moment, if it is later than what was told before.
pub(crate) fn tick(window: &mut Window, moment: u64)
    requires acts { ActsForSome window.old }
    requires room { HasRoom window.old }
    requires drained { vec_len window.old.requests ≡ 0 }
    ensures gives { (s : State) → Acts window.old s → Gives window.old window.new (step window.old.config s (moment_input moment)) }
    ensures room { HasRoom window.new }
{
    window.asked = None;
    window.moment = window.moment.max(moment);
    settle(window);
    ask_all(window);
    let made = window.requests.len() as u64;
    window.counts.requests = window.counts.requests.saturating_add(made);
}
