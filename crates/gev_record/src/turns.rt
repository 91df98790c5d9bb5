//! The lines of a turn.

ghost use Rattle.std.specs.Prelude.{◌≡◌, ◌++◌, ◌≤◌, length, OnOk, Some, None};
ghost use Rattle.acquisition_machine.specs.Runs.{After};
ghost use Rattle.gev_record.specs.Script.{live_config, heard, heard_lines, told_in, turn_lines};
ghost use Rattle.gev_record.specs.Standing.{TakesInputs, queued_at, turn_of};
ghost use Rattle.gev_record.specs.Writing.{text_of};

use crate::lines::add_datagram;
use crate::replica::{give_outcome, tell, tick};
use crate::used::Used;
use acquisition_machine::Mark;
use gev_script::Line;
use gev_types::NoMemory;
use std::alloc::Global;
use take_lines::{Need, Player, add_line};

/// Queues the buffer at this place, where the turn opened a block with one.
fn add_queue(alloc: Global, place: u8, mark: Mark, text: &mut Vec<u8>) -> Result<(), NoMemory>
    ensures { OnOk result (text.new.items ≡ text.old.items ++ text_of (queued_at place mark)) }
{
    if mark.opened > 0 && mark.claimed {
        return add_line(
            alloc,
            &Line::Queue {
                place,
                generation: 1,
            },
            text,
        );
    }
    Ok(())
}

/// Tells what came in a turn, and adds its lines.
fn receive(
    alloc: Global,
    player: &mut Player,
    used: &mut Used,
    bytes: &[u8],
    mark: Mark,
    text: &mut Vec<u8>,
) -> Result<(), NoMemory>
    requires some { 1 ≤ length bytes.now }
    requires short { length bytes.now ≤ 1600 }
    ensures { OnOk result (TakesInputs player.old player.new used.old used.new (λ q. heard (After live_config q) (Some bytes.now) mark.claimed)
        (λ q. text_of (heard_lines (After live_config q) (Some bytes.now) mark)) text.old.items text.new.items) }
{
    let place = used.lowest_free();
    add_queue(alloc, place, mark, text)?;
    add_datagram(alloc, bytes, text)?;
    match tell(alloc, player, used, bytes, text)? {
        Need::Buffer(_) => {
            give_outcome(player, used, place, mark.claimed);
            tell(alloc, player, used, bytes, text)?;
            Ok(())
        }
        Need::Done => Ok(()),
        Need::Ignored(_) => Ok(()),
    }
}

/// Tells a datagram that came, if it has a byte, and the moment of its turn, and adds their lines.
pub(crate) fn add_heard(
    alloc: Global,
    player: &mut Player,
    used: &mut Used,
    bytes: &[u8],
    mark: Mark,
    text: &mut Vec<u8>,
) -> Result<(), NoMemory>
    requires short { length bytes.now ≤ 1600 }
    ensures { OnOk result (TakesInputs player.old player.new used.old used.new (λ q. told_in (After live_config q) (turn_of (Some bytes.now) mark))
        (λ q. text_of (turn_lines (After live_config q) (turn_of (Some bytes.now) mark))) text.old.items text.new.items) }
{
    if bytes.is_empty() {
        return tick(alloc, player, used, mark.moment, text);
    }
    receive(alloc, player, used, bytes, mark, text)?;
    tick(alloc, player, used, mark.moment, text)
}

/// Tells the moment of a turn in which nothing came, and adds its lines.
pub(crate) fn add_silent(
    alloc: Global,
    player: &mut Player,
    used: &mut Used,
    mark: Mark,
    text: &mut Vec<u8>,
) -> Result<(), NoMemory>
    ensures { OnOk result (TakesInputs player.old player.new used.old used.new (λ q. told_in (After live_config q) (turn_of None mark))
        (λ q. text_of (turn_lines (After live_config q) (turn_of None mark))) text.old.items text.new.items) }
{
    tick(alloc, player, used, mark.moment, text)
}
