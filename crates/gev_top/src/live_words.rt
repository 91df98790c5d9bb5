//! The words of a live run, and of any command line.

ghost use Rattle.std.specs.Prelude.{◌≡◌, map, IfOk};
ghost use Rattle.std.specs.String.{string_bytes};
ghost use Rattle.script_trace.specs.Modes.{mode_of};
ghost use Rattle.gev_top.specs.Usage.{named};
ghost use Rattle.gev_top.specs.LiveWords.{IsInRange, IsRecordable, IsErrand, mode_at, live_of, record_of, errand_named, errand_of};

use crate::errand::Errand;
use crate::live_numbers::LiveNumbers;
use crate::usage::{is, none_at, number_at, read_named};
use board_calls::Mode;
use camera_words::{read_description, read_discover, read_receive, read_register, read_simulate};
use gev_script::number_in;

/// What the words ask for, or the place, from 0, of the first word with which no command line goes on. Where more words
/// are wanted it is their number.
pub fn read_errand(words: &[String]) -> Result<Errand, u32>
    ensures said { result ≡ errand_of (map (λ word. string_bytes word) words.now) }
    ensures within { IfOk result (λ errand. IsErrand errand) }
{
    match words {
        [] => Err(0),
        [name, ..] => read_errand_named(name.as_bytes(), words),
    }
}

/// The same of the words of which the first is this name.
fn read_errand_named(name: &[u8], words: &[String]) -> Result<Errand, u32>
    ensures said { result ≡ errand_named name.now (map (λ word. string_bytes word) words.now) }
    ensures within { IfOk result (λ errand. IsErrand errand) }
{
    if is(name, b"live") {
        let numbers = read_live_numbers(words)?;
        return Ok(Errand::Live(numbers));
    }
    if is(name, b"record") {
        let numbers = read_record_numbers(words)?;
        return Ok(Errand::Record(numbers));
    }
    if is(name, b"discover") {
        let address = read_discover(words)?;
        return Ok(Errand::Discover(address));
    }
    if is(name, b"description") {
        let camera = read_description(words)?;
        return Ok(Errand::Description(camera));
    }
    if is(name, b"receive") {
        let settings = read_receive(words)?;
        return Ok(Errand::Receive(settings));
    }
    if is(name, b"simulate") {
        let asked = read_simulate(words)?;
        return Ok(Errand::Simulate(asked));
    }
    if is(name, b"register") {
        let asked = read_register(words)?;
        return Ok(Errand::Register(asked));
    }
    let command = read_named(name, words)?;
    Ok(Errand::Plain(command))
}

/// Five numbers follow `live`, then the mode's or none, and no further word.
fn read_live_numbers(words: &[String]) -> Result<LiveNumbers, u32>
    ensures said { result ≡ live_of (map (λ word. string_bytes word) words.now) }
    ensures within { IfOk result (λ n. IsInRange n) }
{
    let seed = number_at(0, 18_446_744_073_709_551_615, 1, words)?;
    let frames = number_at(1, 1000, 2, words)? as u32;
    let buffers = number_at(1, 15, 3, words)? as u8;
    let lanes = number_at(1, 4, 4, words)? as u8;
    let turns = number_at(1, 100_000_000, 5, words)?;
    let mode = mode_at(6, words)?;
    none_at(7, words)?;
    Ok(LiveNumbers {
        seed,
        frames,
        buffers,
        lanes,
        turns,
        mode,
    })
}

/// Four numbers follow `record`, and no further word.
fn read_record_numbers(words: &[String]) -> Result<LiveNumbers, u32>
    ensures said { result ≡ record_of (map (λ word. string_bytes word) words.now) }
    ensures within { IfOk result (λ n. IsRecordable n) }
{
    let seed = number_at(0, 18_446_744_073_709_551_615, 1, words)?;
    let frames = number_at(1, 1000, 2, words)? as u32;
    let buffers = number_at(1, 15, 3, words)? as u8;
    let turns = number_at(1, 100_000, 4, words)?;
    none_at(5, words)?;
    Ok(LiveNumbers {
        seed,
        frames,
        buffers,
        lanes: 1,
        turns,
        mode: Mode::OldestFirst,
    })
}

/// The buffer handling mode whose number the word at this place is, or the place; without a word `OldestFirst`.
fn mode_at(place: u32, words: &[String]) -> Result<Mode, u32>
    ensures { result ≡ mode_at place (map (λ word. string_bytes word) words.now) }
{
    match words.get(place as usize) {
        Some(word) => match number_in(0, 2, word.as_bytes()) {
            Ok(number) => Ok(mode_of(number)),
            Err(_) => Err(place),
        },
        None => Ok(Mode::OldestFirst),
    }
}

/// The mode with this number, 0 to 2.
fn mode_of(number: u64) -> Mode
    ensures { result ≡ mode_of number }
{
    if number == 0 {
        return Mode::OldestFirst;
    }
    if number == 1 {
        return Mode::OldestFirstOverwrite;
    }
    Mode::NewestOnly
}
