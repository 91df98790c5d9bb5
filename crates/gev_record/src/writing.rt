ghost use Rattle.std.specs.Prelude.{◌≡◌, ◌++◌, ◌∷◌, ◌≤◌, [], length, map, get_or, OnOk, Some, None, IfOk, IfSome, option_map};
ghost use Rattle.acquisition_machine.specs.Runs.{first_state};
ghost use Rattle.acquisition_machine.specs.Turns.{with_bytes};
ghost use Rattle.gev_record.specs.Script.{script_of, live_header, first_lines, after_turn, after_turns, turn_lines, turns_lines, stop_lines};
ghost use Rattle.gev_script.specs.Lines.{header, end_of_script};
ghost use Rattle.gev_record.specs.Standing.{StandsIn, turn_of, none_used};
ghost use Rattle.gev_record.specs.Writing.{noted, Writes, text_of};

use crate::record_end::RecordEnd;
use crate::replica::{BUFFER_SIZE, stop};
use crate::tape::Tape;
use crate::turns::{add_heard, add_silent};
use crate::used::Used;
use acquisition_machine::Mark;
use gev_links::{Link, Sink, write_all};
use gev_script::Line;
use gev_types::NoMemory;
use std::alloc::Global;
use take_lines::{AcqConfig, Player, add_line};

/// How a live run's receiver is configured.
const LIVE: AcqConfig = AcqConfig {
    p: 1452,
    window: 2,
    timeout: 200,
    age: 20,
    rounds: 3,
};

const NONE_USED: Used = Used {
    first: false,
    second: false,
    third: false,
};

/// Adds the header, three buffers, and the start.
fn add_first(alloc: Global, text: &mut Vec<u8>) -> Result<(), NoMemory>
    ensures { OnOk result (text.new.items ≡ text.old.items ++ text_of (header live_header ∷ first_lines)) }
{
    let header = Line::Header {
        version: 1,
        p: LIVE.p,
        window: LIVE.window,
        timeout: LIVE.timeout,
        age: LIVE.age,
        rounds: LIVE.rounds,
    };
    let announce = Line::Announce {
        size: u64::from(BUFFER_SIZE),
    };
    add_line(alloc, &header, text)?;
    add_line(alloc, &announce, text)?;
    add_line(alloc, &announce, text)?;
    add_line(alloc, &announce, text)?;
    add_line(alloc, &Line::Start, text)
}

/// Writes what stands before the first turn.
fn write_first<K: Sink>(alloc: Global, text: &mut Vec<u8>, sink: &mut K) -> Result<(), RecordEnd>
    ensures { Writes result (K.written sink.old) (K.written sink.new) (K.faults sink.old) (K.faults sink.new)
        (text_of (header live_header ∷ first_lines)) }
{
    text.clear();
    add_first(alloc, text)?;
    write_all(sink, text.as_slice())?;
    Ok(())
}

/// Adds the lines of a turn.
fn add_turn(
    alloc: Global,
    player: &mut Player,
    used: &mut Used,
    received: Option<&[u8]>,
    mark: Mark,
    text: &mut Vec<u8>,
) -> Result<(), NoMemory>
    requires short { IfSome received (λ bytes. length bytes.now ≤ 1600) }
    ensures stands { OnOk result ((s : _) → StandsIn player.old used.old s → StandsIn player.new used.new (after_turn s (turn_of (option_map (λ bytes. bytes.now) received.entry) mark))) }
    ensures said { OnOk result ((s : _) → StandsIn player.old used.old s → text.new.items ≡ text.old.items ++ text_of (turn_lines s (turn_of (option_map (λ bytes. bytes.now) received.entry) mark))) }
{
    match received {
        Some(bytes) => add_heard(alloc, player, used, bytes, mark, text),
        None => add_silent(alloc, player, used, mark, text),
    }
}

/// Writes the lines of a turn.
fn write_turn<K: Sink>(
    alloc: Global,
    player: &mut Player,
    used: &mut Used,
    received: Option<&[u8]>,
    mark: Mark,
    text: &mut Vec<u8>,
    sink: &mut K,
) -> Result<(), RecordEnd>
    requires short { IfSome received (λ bytes. length bytes.now ≤ 1600) }
    ensures stands { OnOk result ((s : _) → StandsIn player.old used.old s → StandsIn player.new used.new (after_turn s (turn_of (option_map (λ bytes. bytes.now) received.entry) mark))) }
    ensures written { (s : _) → StandsIn player.old used.old s → Writes result (K.written sink.old) (K.written sink.new) (K.faults sink.old) (K.faults sink.new)
        (text_of (turn_lines s (turn_of (option_map (λ bytes. bytes.now) received.entry) mark))) }
{
    text.clear();
    add_turn(alloc, player, used, received, mark, text)?;
    write_all(sink, text.as_slice())?;
    Ok(())
}

/// Writes the lines of all turns.
fn write_turns<L: Link, K: Sink>(
    alloc: Global,
    player: &mut Player,
    used: &mut Used,
    tape: &Tape<L>,
    marks: &[Mark],
    text: &mut Vec<u8>,
    sink: &mut K,
) -> Result<(), RecordEnd>
    ensures stands { OnOk result ((s : _) → StandsIn player.old used.old s → StandsIn player.new used.new (after_turns s (map with_bytes (noted tape.now.kept marks.now)))) }
    ensures written { (s : _) → StandsIn player.old used.old s → Writes result (K.written sink.old) (K.written sink.new) (K.faults sink.old) (K.faults sink.new)
        (text_of (turns_lines s (map with_bytes (noted tape.now.kept marks.now)))) }
{
    for turn in 0..marks.len() {
        write_turn(
            alloc,
            player,
            used,
            tape.kept_at(turn),
            marks[turn],
            text,
            sink,
        )?;
    }
    Ok(())
}

/// Writes what stands behind the last turn.
fn write_last<K: Sink>(
    alloc: Global,
    player: &mut Player,
    used: &mut Used,
    text: &mut Vec<u8>,
    sink: &mut K,
) -> Result<(), RecordEnd>
    ensures { (s : _) → StandsIn player.old used.old s → Writes result (K.written sink.old) (K.written sink.new) (K.faults sink.old) (K.faults sink.new)
        (text_of (stop_lines s ++ end_of_script ∷ [])) }
{
    text.clear();
    add_last(alloc, player, used, text)?;
    write_all(sink, text.as_slice())?;
    Ok(())
}

/// Adds what stands behind the last turn.
fn add_last(
    alloc: Global,
    player: &mut Player,
    used: &mut Used,
    text: &mut Vec<u8>,
) -> Result<(), NoMemory>
    ensures { OnOk result ((s : _) → StandsIn player.old used.old s → text.new.items ≡ text.old.items ++ text_of (stop_lines s ++ end_of_script ∷ [])) }
{
    stop(alloc, player, used, text)?;
    add_line(alloc, &Line::End, text)
}

/// A receiver that heard nothing yet.
fn new_player(alloc: Global) -> Result<Player, NoMemory>
    ensures { IfOk result (λ player. StandsIn player none_used first_state) }
{
    Player::new(alloc, LIVE, BUFFER_SIZE)
}

/// Writes the script of a tape and the marks of its run, one for each receive. The script is a replay's, of
/// version 1: three buffers of 307,200 bytes, a `queue` before each datagram that opened a block with a buffer,
/// what came and the moment of each turn, and a `take` for each buffer that is filled at a line.
///
/// It runs a receiver of its own over the tape, and keeps the text of a turn at a time. After a fault, or without
/// memory, a front of the script was written.
pub fn write_script<L: Link, K: Sink>(
    alloc: Global,
    tape: &Tape<L>,
    marks: &[Mark],
    sink: &mut K,
) -> Result<(), RecordEnd>
    ensures { Writes result (K.written sink.old) (K.written sink.new) (K.faults sink.old) (K.faults sink.new)
        (script_of (noted tape.now.kept marks.now)) }
{
    let mut text = Vec::new(alloc);
    let mut player = new_player(alloc)?;
    let mut used = NONE_USED;
    write_first(alloc, &mut text, sink)?;
    write_turns(alloc, &mut player, &mut used, tape, marks, &mut text, sink)?;
    write_last(alloc, &mut player, &mut used, &mut text, sink)
}
