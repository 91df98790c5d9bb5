ghost use Rattle.std.specs.Prelude.{◌≡◌, ◌≤◌, IfSome, Some, None};
ghost use Rattle.camera_words.specs.Choices.{setting_named, number_within, output_in, digest_in, until_in, none_or_from, value_in, number_of, is_same, found, chosen, Fits, AllFit};

use crate::parts::is;
use crate::setting::{Choice, Setting};
use gev_script::number_in;

/// The setting with this name.
pub(crate) fn setting_named(name: &[u8]) -> Option<Setting>
    ensures { result ≡ setting_named name.now }
{
    if is(name, b"packet") {
        Some(Setting::Packet)
    } else if is(name, b"buffers") {
        Some(Setting::Buffers)
    } else if is(name, b"bytes") {
        Some(Setting::Bytes)
    } else if is(name, b"mode") {
        Some(Setting::Mode)
    } else if is(name, b"window") {
        Some(Setting::Window)
    } else if is(name, b"timeout") {
        Some(Setting::Timeout)
    } else if is(name, b"age") {
        Some(Setting::Age)
    } else if is(name, b"rounds") {
        Some(Setting::Rounds)
    } else if is(name, b"silence") {
        Some(Setting::Silence)
    } else if is(name, b"as") {
        Some(Setting::Output)
    } else if is(name, b"until") {
        Some(Setting::Until)
    } else if is(name, b"progress") {
        Some(Setting::Progress)
    } else if is(name, b"digest") {
        Some(Setting::Digest)
    } else {
        None
    }
}

/// The number within these bounds that a text is.
fn number_within(low: u32, high: u32, text: &[u8]) -> Option<u32>
    ensures value { result ≡ number_within low high text.now }
    ensures within { IfSome result (λ n. (low ≤ n) × (n ≤ high)) }
{
    match number_in(u64::from(low), u64::from(high), text) {
        Ok(number) => Some(number as u32),
        Err(_) => None,
    }
}

/// What is written, by its number.
fn output_in(text: &[u8]) -> Option<u32>
    ensures value { result ≡ output_in text.now }
    ensures within { IfSome result (λ n. n ≤ 2) }
{
    if is(text, b"lines") {
        Some(0)
    } else if is(text, b"pictures") {
        Some(1)
    } else if is(text, b"counts") {
        Some(2)
    } else {
        None
    }
}

/// The digest in a line, by its number.
fn digest_in(text: &[u8]) -> Option<u32>
    ensures value { result ≡ digest_in text.now }
    ensures within { IfSome result (λ n. n ≤ 1) }
{
    if is(text, b"sha256") {
        Some(0)
    } else if is(text, b"none") {
        Some(1)
    } else {
        None
    }
}

/// What ends the run, by its number.
fn until_in(text: &[u8]) -> Option<u32>
    ensures value { result ≡ until_in text.now }
    ensures within { IfSome result (λ n. n ≤ 1) }
{
    if is(text, b"frames") {
        Some(0)
    } else if is(text, b"stdin") {
        Some(1)
    } else {
        None
    }
}

/// A number of milliseconds that is 0 or at least 100, and at most 60,000.
fn progress_in(text: &[u8]) -> Option<u32>
    ensures value { result ≡ none_or_from 100 (number_within 0 60000 text.now) }
    ensures within { IfSome result (λ n. n ≤ 60000) }
{
    match number_within(0, 60_000, text) {
        Some(number) => {
            if number == 0 || 100 <= number {
                Some(number)
            } else {
                None
            }
        }
        None => None,
    }
}

/// What a setting is set to by this text.
pub(crate) fn value_in(setting: Setting, text: &[u8]) -> Option<u32>
    ensures value { result ≡ value_in setting text.now }
    ensures within { IfSome result (λ n. Fits setting n) }
{
    match setting {
        Setting::Packet => number_within(576, 9000, text),
        Setting::Buffers => number_within(1, 15, text),
        Setting::Bytes => number_within(1, 67_108_864, text),
        Setting::Mode => number_within(0, 2, text),
        Setting::Window => number_within(1, 4, text),
        Setting::Timeout => number_within(1, 60_000, text),
        Setting::Age => number_within(1, 60_000, text),
        Setting::Rounds => number_within(0, 8, text),
        Setting::Silence => number_within(1, 3_600_000, text),
        Setting::Output => output_in(text),
        Setting::Until => until_in(text),
        Setting::Progress => progress_in(text),
        Setting::Digest => digest_in(text),
    }
}

/// The setting's own number.
fn number_of(setting: Setting) -> u8
    ensures { result ≡ number_of setting }
{
    match setting {
        Setting::Packet => 0,
        Setting::Buffers => 1,
        Setting::Bytes => 2,
        Setting::Mode => 3,
        Setting::Window => 4,
        Setting::Timeout => 5,
        Setting::Age => 6,
        Setting::Rounds => 7,
        Setting::Silence => 8,
        Setting::Output => 9,
        Setting::Until => 10,
        Setting::Progress => 11,
        Setting::Digest => 12,
    }
}

fn is_same(a: Setting, b: Setting) -> bool
    ensures { result ≡ is_same a b }
{
    number_of(a) == number_of(b)
}

/// What this was set to, if it was.
pub(crate) fn found(setting: Setting, choices: &[Choice]) -> Option<u32>
    requires fit { AllFit choices.now }
    ensures value { result ≡ found setting choices.now }
    ensures within { IfSome result (λ n. Fits setting n) }
{
    let mut rest = choices;
    while let [choice, behind @ ..] = rest {
        if is_same(choice.setting, setting) {
            return Some(choice.value);
        }
        rest = behind;
    }
    None
}

/// The same, or this where it wasn't.
pub(crate) fn chosen(setting: Setting, default: u32, choices: &[Choice]) -> u32
    requires fit { AllFit choices.now }
    requires default { Fits setting default }
    ensures value { result ≡ chosen setting default choices.now }
    ensures within { Fits setting result }
{
    match found(setting, choices) {
        Some(value) => value,
        None => default,
    }
}
