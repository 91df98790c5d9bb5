//! The run's receiver once more, which takes what the run's receiver took.

ghost use Rattle.std.specs.Prelude.{◌≡◌, ◌++◌, [], ◌∷◌, map, IsSome, IfOk, OnOk, Some};
ghost use Rattle.gev_script.specs.Lines as line;
ghost use Rattle.acquisition_machine.specs.Machine.{datagram, claimed as claim_told, tick as moment_told, stop as stopped, step};
ghost use Rattle.acquisition_machine.specs.Runs.{After};
ghost use Rattle.acquisition_machine.specs.TurnLaws.{asked_by};
ghost use Rattle.take_lines.specs.Players.{asked_in};
ghost use Rattle.gev_record.specs.Script.{live_config, told_outcome, takes, stop_lines};
ghost use Rattle.gev_record.specs.Places.{all_freed};
ghost use Rattle.gev_record.specs.Standing.{StandsAt, TakesInputs, IsFreeFor};
ghost use Rattle.gev_record.specs.Writing.{text_of};

use crate::used::Used;
use gev_script::Line;
use gev_types::NoMemory;
use std::alloc::Global;
use take_lines::{Need, Player, add_line};

/// The size of each buffer of a recorded run, in bytes.
pub(crate) const BUFFER_SIZE: u32 = 307_200;

/// A `take` for each buffer that came back, whose places are free again.
fn add_takes(alloc: Global, back: &[u8], used: Used, text: &mut Vec<u8>) -> Result<Used, NoMemory>
    ensures said { IfOk result (λ _. text.new.items ≡ text.old.items ++ text_of (map (λ _. line.take) back.now)) }
    ensures freed { IfOk result (λ after. after ≡ all_freed back.now used) }
{
    take_lines::add_takes(alloc, back.len(), text)?;
    Ok(used.free_all(back))
}

/// Tells a datagram once, and adds a `take` for each block that is filled.
pub(crate) fn tell(
    alloc: Global,
    player: &mut Player,
    used: &mut Used,
    bytes: &[u8],
    text: &mut Vec<u8>,
) -> Result<Need, NoMemory>
    ensures takes { IfOk result (λ _. TakesInputs player.old player.new used.old used.new (λ q. datagram bytes.now ∷ [])
        (λ q. text_of (takes (After live_config q) (datagram bytes.now ∷ []))) text.old.items text.new.items) }
    ensures need { (q : _) → StandsAt player.old used.old q → IfOk result (λ need. asked_by (step live_config (After live_config q) (datagram bytes.now)).need ≡ asked_by (Some need)) }
    ensures asked { IfOk result (λ need. asked_in player.new ≡ asked_by (Some need)) }
{
    let (need, back) = player.datagram(bytes);
    *used = add_takes(alloc, back.as_slice(), *used, text)?;
    Ok(need)
}

/// Gives the outcome of a claim: a buffer at this place, or none.
pub(crate) fn give_outcome(player: &mut Player, used: &mut Used, place: u8, claimed: bool)
    requires asked { IsSome (asked_in player.old) }
    ensures { (q : _) → StandsAt player.old used.old q → IsFreeFor place q → StandsAt player.new used.new (q ++ claim_told (told_outcome claimed place) ∷ []) }
{
    if claimed {
        player.give(Some(place));
        *used = used.occupy(place);
    } else {
        player.give(None);
    }
}

/// Tells a moment, and adds its lines.
pub(crate) fn tick(
    alloc: Global,
    player: &mut Player,
    used: &mut Used,
    moment: u64,
    text: &mut Vec<u8>,
) -> Result<(), NoMemory>
    ensures { OnOk result (TakesInputs player.old player.new used.old used.new (λ q. moment_told moment ∷ [])
        (λ q. text_of (line.tick moment ∷ takes (After live_config q) (moment_told moment ∷ []))) text.old.items text.new.items) }
{
    add_line(alloc, &Line::Tick { moment }, text)?;
    let back = player.tick(moment);
    *used = add_takes(alloc, back.as_slice(), *used, text)?;
    Ok(())
}

/// Stops the receiver, and adds the lines of that.
pub(crate) fn stop(
    alloc: Global,
    player: &mut Player,
    used: &mut Used,
    text: &mut Vec<u8>,
) -> Result<(), NoMemory>
    ensures { OnOk result ((q : _) → StandsAt player.old used.old q → text.new.items ≡ text.old.items ++ text_of (stop_lines (After live_config q))) }
{
    add_line(alloc, &Line::Stop { flags: 0 }, text)?;
    let back = player.stop();
    *used = add_takes(alloc, back.as_slice(), *used, text)?;
    Ok(())
}
