ghost use Rattle.std.specs.Prelude.{◌≡◌, ◌≤◌, map, IfOk};
ghost use Rattle.std.specs.String.{string_bytes};
ghost use Rattle.std.specs.Str.{bytes_eq};
ghost use Rattle.gev_top.specs.Usage.{number_at, none_at, short_at, wanted_at, rates_of, replay_of, explain_of, image_of, streams_of, capture_of, camera_of, make_of, soak_of, numbers_of, named, command_of, is_word_at, IsInRange};
ghost use Rattle.script_image.specs.Ends.{IsInRange as IsWantedInRange};

use crate::command::Command;
use crate::numbers::Numbers;
use gev_script::number_in;
use lossy_queue::Rates;
use script_image::Wanted;

/// The command that the words are, or the place, from 0, of the first word with which no command line
/// goes on. Where more words are wanted it is their number.
pub(crate) fn read_words(words: &[String]) -> Result<Command, u32>
    ensures said { result ≡ command_of (map (λ word. string_bytes word) words.now) }
    ensures within { IfOk result (λ command. IsInRange command) }
{
    match words {
        [] => Err(0),
        [name, ..] => read_named(name.as_bytes(), words),
    }
}

/// The same of the words of which the first is this name.
pub(crate) fn read_named(name: &[u8], words: &[String]) -> Result<Command, u32>
    ensures said { result ≡ named name.now (map (λ word. string_bytes word) words.now) }
    ensures within { IfOk result (λ command. IsInRange command) }
{
    if is(name, b"replay") {
        return read_replay(words);
    }
    if is(name, b"explain") {
        return read_explain(words);
    }
    if is(name, b"image") {
        return read_image(words);
    }
    if is(name, b"streams") {
        return read_streams(words);
    }
    if is(name, b"capture") {
        return read_capture(words);
    }
    if is(name, b"camera") {
        return read_camera(words);
    }
    if is(name, b"make") {
        return read_make(words);
    }
    if is(name, b"soak") {
        return read_soak(words);
    }
    Err(0)
}

/// No word follows `replay`.
fn read_replay(words: &[String]) -> Result<Command, u32>
    ensures said { result ≡ replay_of (map (λ word. string_bytes word) words.now) }
    ensures within { IfOk result (λ command. IsInRange command) }
{
    none_at(1, words)?;
    Ok(Command::Replay)
}

/// No word follows `explain`.
fn read_explain(words: &[String]) -> Result<Command, u32>
    ensures said { result ≡ explain_of (map (λ word. string_bytes word) words.now) }
    ensures within { IfOk result (λ command. IsInRange command) }
{
    none_at(1, words)?;
    Ok(Command::Explain)
}

/// The number of a buffer follows `image`, or the word `all`.
fn read_image(words: &[String]) -> Result<Command, u32>
    ensures said { result ≡ image_of (map (λ word. string_bytes word) words.now) }
    ensures within { IfOk result (λ command. IsInRange command) }
{
    let wanted = wanted_at(1, words)?;
    none_at(2, words)?;
    Ok(Command::Image { wanted })
}

/// Which buffers the word at this place says: the one with this number, from 1, or `all`.
fn wanted_at(place: u32, words: &[String]) -> Result<Wanted, u32>
    ensures said { result ≡ wanted_at place (map (λ word. string_bytes word) words.now) }
    ensures within { IfOk result (λ wanted. IsWantedInRange wanted) }
{
    if is_at(place, words, b"all") {
        return Ok(Wanted::All);
    }
    let number = number_at(1, 4_294_967_295, place, words)? as u32;
    Ok(Wanted::One(number))
}

/// Whether just this word stands at this place.
fn is_at(place: u32, words: &[String], wanted: &[u8]) -> bool
    ensures { result ≡ is_word_at wanted.now place (map (λ word. string_bytes word) words.now) }
{
    match words.get(place as usize) {
        Some(word) => is(word.as_bytes(), wanted),
        None => false,
    }
}

/// No word follows `streams`.
fn read_streams(words: &[String]) -> Result<Command, u32>
    ensures said { result ≡ streams_of (map (λ word. string_bytes word) words.now) }
    ensures within { IfOk result (λ command. IsInRange command) }
{
    none_at(1, words)?;
    Ok(Command::Streams)
}

/// A port, the most bytes of a payload and the bytes of a buffer follow `capture`.
fn read_capture(words: &[String]) -> Result<Command, u32>
    ensures said { result ≡ capture_of (map (λ word. string_bytes word) words.now) }
    ensures within { IfOk result (λ command. IsInRange command) }
{
    let port = number_at(1, 65_535, 1, words)? as u16;
    let p = number_at(528, 8964, 2, words)? as u32;
    let bytes = number_at(1, 67_108_864, 3, words)? as u32;
    none_at(4, words)?;
    Ok(Command::Capture { port, p, bytes })
}

/// No word follows `camera`.
fn read_camera(words: &[String]) -> Result<Command, u32>
    ensures said { result ≡ camera_of (map (λ word. string_bytes word) words.now) }
    ensures within { IfOk result (λ command. IsInRange command) }
{
    none_at(1, words)?;
    Ok(Command::Camera)
}

/// A seed, a number of frames and three rates follow `make`.
fn read_make(words: &[String]) -> Result<Command, u32>
    ensures said { result ≡ make_of (map (λ word. string_bytes word) words.now) }
    ensures within { IfOk result (λ command. IsInRange command) }
{
    let Numbers {
        seed,
        frames,
        rates,
    } = read_numbers(words)?;
    none_at(6, words)?;
    Ok(Command::Make {
        seed,
        frames,
        rates,
    })
}

/// The same numbers follow `soak`, and then the word `short` or none.
fn read_soak(words: &[String]) -> Result<Command, u32>
    ensures said { result ≡ soak_of (map (λ word. string_bytes word) words.now) }
    ensures within { IfOk result (λ command. IsInRange command) }
{
    let Numbers {
        seed,
        frames,
        rates,
    } = read_numbers(words)?;
    let short = short_at(6, words)?;
    none_at(7, words)?;
    Ok(Command::Soak {
        seed,
        frames,
        rates,
        short,
    })
}

/// The numbers behind `make` and `soak`.
fn read_numbers(words: &[String]) -> Result<Numbers, u32>
    ensures { result ≡ numbers_of (map (λ word. string_bytes word) words.now) }
{
    let seed = number_at(0, 18_446_744_073_709_551_615, 1, words)?;
    let frames = number_at(0, 100_000, 2, words)? as u32;
    let rates = read_rates(words)?;
    Ok(Numbers {
        seed,
        frames,
        rates,
    })
}

/// The rates, which stand behind the number of frames.
fn read_rates(words: &[String]) -> Result<Rates, u32>
    ensures { result ≡ rates_of (map (λ word. string_bytes word) words.now) }
{
    let loss = number_at(0, 1000, 3, words)? as u16;
    let repeat = number_at(0, 1000, 4, words)? as u16;
    let swap = number_at(0, 1000, 5, words)? as u16;
    Ok(Rates { loss, repeat, swap })
}

/// The number within these bounds that the word at this place is, or the place.
pub(crate) fn number_at(low: u64, high: u64, place: u32, words: &[String]) -> Result<u64, u32>
    ensures value { result ≡ number_at low high place (map (λ word. string_bytes word) words.now) }
    ensures within { IfOk result (λ n. (low ≤ n) × (n ≤ high)) }
{
    match words.get(place as usize) {
        Some(word) => match number_in(low, high, word.as_bytes()) {
            Ok(number) => Ok(number),
            Err(_) => Err(place),
        },
        None => Err(place),
    }
}

/// Whether the word `short` stands at this place; another word is refused by the place.
fn short_at(place: u32, words: &[String]) -> Result<bool, u32>
    ensures { result ≡ short_at place (map (λ word. string_bytes word) words.now) }
{
    match words.get(place as usize) {
        Some(word) => {
            if is(word.as_bytes(), b"short") {
                Ok(true)
            } else {
                Err(place)
            }
        }
        None => Ok(false),
    }
}

/// No word stands at this place, or the place.
pub(crate) fn none_at(place: u32, words: &[String]) -> Result<(), u32>
    ensures { result ≡ none_at place (map (λ word. string_bytes word) words.now) }
{
    match words.get(place as usize) {
        Some(_) => Err(place),
        None => Ok(()),
    }
}

/// Whether the word is just this one.
pub(crate) fn is(word: &[u8], wanted: &[u8]) -> bool
    ensures { result ≡ bytes_eq word.now wanted.now }
{
    word == wanted
}
