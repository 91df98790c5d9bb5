ghost use Rattle.std.specs.Prelude.{◌≡◌, map, slice_get};
ghost use Rattle.std.specs.Result.{result_ok};
ghost use Rattle.std.specs.Str.{bytes_eq};
ghost use Rattle.std.specs.String.{string_bytes};
ghost use Rattle.camera_words.specs.Parts.{before_byte, behind_byte};
ghost use Rattle.camera_words.specs.SimulateWords.{equals, number_of, until_of, set_first, with_seed, with_rate, with_turns, with_until, with_setting, with_value, with_word, setting_of, no_settings, simulation, simulate_of};

use crate::parts::{before_byte, behind_byte};
use crate::words::camera_at;
use gev_script::number_in;

/// What the words of `simulate` ask for.
#[derive(Clone, Copy, Debug, PartialEq, Eq)]
pub struct SimulateWords {
    /// The IPv4 address of this machine at which the camera is.
    pub address: u32,
    /// The seed of its images.
    pub seed: u64,
    /// How many of its turns make a frame in a second, from 1 to 1000.
    pub rate: u64,
    /// How many turns make a frame at most, from 1 to 4,294,967,295.
    pub turns: u64,
    /// Whether it also ends where standard input has ended.
    pub with_input: bool,
}

/// The settings that were read.
#[derive(Clone, Copy)]
struct SimulateSettings {
    seed: Option<u64>,
    rate: Option<u64>,
    turns: Option<u64>,
    with_input: Option<bool>,
}

/// Whether the word is just this one.
fn is(word: &[u8], wanted: &[u8]) -> bool
    ensures { result ≡ bytes_eq word.now wanted.now }
{
    word == wanted
}

/// The number within these bounds that a value is.
fn number_of(low: u64, high: u64, value: &[u8]) -> Option<u64>
    ensures { result ≡ number_of low high value.now }
{
    match number_in(low, high, value) {
        Ok(number) => Some(number),
        Err(_) => None,
    }
}

/// Whether the run also ends where standard input has ended.
fn until_of(value: &[u8]) -> Option<bool>
    ensures { result ≡ until_of value.now }
{
    if is(value, b"turns") {
        return Some(false);
    }
    if is(value, b"stdin") {
        return Some(true);
    }
    None
}

/// A value that is set for the first time.
fn set_first<A: Copy>(old: Option<A>, value: Option<A>) -> Option<A>
    ensures { result ≡ set_first old value }
{
    match old {
        Some(_) => None,
        None => value,
    }
}

fn with_seed(settings: SimulateSettings, seed: Option<u64>) -> Option<SimulateSettings>
    ensures { result ≡ with_seed settings seed }
{
    match seed {
        Some(_) => Some(SimulateSettings { seed, ..settings }),
        None => None,
    }
}

fn with_rate(settings: SimulateSettings, rate: Option<u64>) -> Option<SimulateSettings>
    ensures { result ≡ with_rate settings rate }
{
    match rate {
        Some(_) => Some(SimulateSettings { rate, ..settings }),
        None => None,
    }
}

fn with_turns(settings: SimulateSettings, turns: Option<u64>) -> Option<SimulateSettings>
    ensures { result ≡ with_turns settings turns }
{
    match turns {
        Some(_) => Some(SimulateSettings { turns, ..settings }),
        None => None,
    }
}

fn with_until(settings: SimulateSettings, with_input: Option<bool>) -> Option<SimulateSettings>
    ensures { result ≡ with_until settings with_input }
{
    match with_input {
        Some(_) => Some(SimulateSettings {
            with_input,
            ..settings
        }),
        None => None,
    }
}

/// The settings with this one, where it's in its range and wasn't set before.
fn with_setting(name: &[u8], value: &[u8], settings: SimulateSettings) -> Option<SimulateSettings>
    ensures { result ≡ with_setting name.now value.now settings }
{
    if is(name, b"seed") {
        let seed = set_first(
            settings.seed,
            number_of(0, 18_446_744_073_709_551_615, value),
        );
        return with_seed(settings, seed);
    }
    if is(name, b"rate") {
        let rate = set_first(settings.rate, number_of(1, 1000, value));
        return with_rate(settings, rate);
    }
    if is(name, b"turns") {
        let turns = set_first(settings.turns, number_of(1, 4_294_967_295, value));
        return with_turns(settings, turns);
    }
    if is(name, b"until") {
        let with_input = set_first(settings.with_input, until_of(value));
        return with_until(settings, with_input);
    }
    None
}

/// The settings with that of a word.
fn with_word(word: &[u8], settings: SimulateSettings) -> Option<SimulateSettings>
    ensures { result ≡ with_word word.now settings }
{
    match behind_byte(b'=', word) {
        Some(value) => with_setting(before_byte(b'=', word), value, settings),
        None => None,
    }
}

/// The settings with that of the word at this place, if there is one, or the place.
fn setting_at(
    place: u32,
    words: &[String],
    settings: SimulateSettings,
) -> Result<SimulateSettings, u32>
    ensures { result ≡ setting_of place (slice_get (map (λ word. string_bytes word) words.now) place) settings }
{
    match words.get(place as usize) {
        Some(word) => match with_word(word.as_bytes(), settings) {
            Some(more) => Ok(more),
            None => Err(place),
        },
        None => Ok(settings),
    }
}

/// What is asked for, with what isn't set.
fn simulation(address: u32, settings: SimulateSettings) -> SimulateWords
    ensures { result ≡ simulation address settings }
{
    SimulateWords {
        address,
        seed: settings.seed.unwrap_or(1),
        rate: settings.rate.unwrap_or(20),
        turns: settings.turns.unwrap_or(4_294_967_295),
        with_input: settings.with_input.unwrap_or(false),
    }
}

/// What `simulate` is to do, or the place, from 0, of the first word with which no command line goes on. Where more
/// words are wanted it is their number.
pub fn read_simulate(words: &[String]) -> Result<SimulateWords, u32>
    ensures { result ≡ simulate_of (map (λ word. string_bytes word) words.now) }
{
    let address = camera_at(words)?;
    let none = SimulateSettings {
        seed: None,
        rate: None,
        turns: None,
        with_input: None,
    };
    let first = setting_at(2, words, none)?;
    let second = setting_at(3, words, first)?;
    let third = setting_at(4, words, second)?;
    let fourth = setting_at(5, words, third)?;
    match words.get(6) {
        Some(_) => Err(6),
        None => Ok(simulation(address, fourth)),
    }
}
