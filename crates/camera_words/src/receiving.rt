ghost use Rattle.std.specs.Prelude.{◌≡◌, ◌≤◌, map, drop, slice_get, IfOk};
ghost use Rattle.std.specs.String.{string_bytes};
ghost use Rattle.camera_words.specs.Receiving.{digest_of, output_of, is_stdin, settings_of, frames_of, receive_of, IsInRange};

use crate::choices::{chosen, found};
use crate::reading::{Reading, read_words};
use crate::setting::Setting;
use crate::settings::{LineDigest, Output, Settings};
use crate::words::camera_at;
use gev_script::number_in;

/// How many frames the word that follows the camera's address says, or its place.
fn frames_at(words: &[String]) -> Result<u32, u32>
    ensures value { result ≡ frames_of 2 (slice_get (map (λ word. string_bytes word) words.now) 2) }
    ensures within { IfOk result (λ n. 1 ≤ n) }
{
    match words.get(2) {
        Some(word) => match number_in(1, 4_294_967_295, word.as_bytes()) {
            Ok(number) => Ok(number as u32),
            Err(_) => Err(2),
        },
        None => Err(2),
    }
}

/// The words behind the first three.
fn behind_three(words: &[String]) -> &[String]
    ensures { result.now ≡ drop 3 words.now }
{
    if words.len() > 3 { &words[3..] } else { &[] }
}

/// The digest in a line, by its number.
fn digest_of(number: u32) -> LineDigest
    ensures { result ≡ digest_of number }
{
    if number == 0 {
        LineDigest::Sha256
    } else {
        LineDigest::Omitted
    }
}

/// What is written, by its number and that of the digest in a line.
fn output_of(number: u32, digest: u32) -> Output
    ensures { result ≡ output_of number digest }
{
    if number == 0 {
        Output::Lines(digest_of(digest))
    } else if number == 1 {
        Output::Pictures
    } else {
        Output::Counts
    }
}

/// What is asked for by what the words said.
fn settings_of(camera: u32, frames: u32, reading: Reading) -> Settings
    requires { 1 ≤ frames }
    ensures value { result ≡ settings_of camera frames reading }
    ensures within { IsInRange result }
{
    let choices = reading.choices.as_slice();
    let packet = chosen(Setting::Packet, 1500, choices) as u16;
    let buffers = chosen(Setting::Buffers, 8, choices) as u8;
    let bytes = found(Setting::Bytes, choices);
    let mode = chosen(Setting::Mode, 0, choices) as u8;
    let window = chosen(Setting::Window, 4, choices) as u8;
    let timeout = chosen(Setting::Timeout, 200, choices);
    let age = chosen(Setting::Age, 10, choices);
    let rounds = chosen(Setting::Rounds, 3, choices) as u8;
    let silence = chosen(Setting::Silence, 5000, choices);
    let digest = chosen(Setting::Digest, 0, choices);
    let output = output_of(chosen(Setting::Output, 0, choices), digest);
    let until_input_ends = chosen(Setting::Until, 0, choices) == 1;
    let progress = chosen(Setting::Progress, 0, choices);
    Settings {
        camera,
        frames,
        writes: reading.writes,
        packet,
        buffers,
        bytes,
        mode,
        window,
        timeout,
        age,
        rounds,
        silence,
        output,
        until_input_ends,
        progress,
    }
}

/// What `receive` is asked for, or the place, from 0, of the first word with which no command line goes on: of a
/// setting's second word too, and of the 65th write. Where more words are wanted it is their number.
pub fn read_receive(words: &[String]) -> Result<Settings, u32>
    ensures said { result ≡ receive_of (map (λ word. string_bytes word) words.now) }
    ensures within { IfOk result (λ settings. IsInRange settings) }
{
    let camera = camera_at(words)?;
    let frames = frames_at(words)?;
    let reading = read_words(behind_three(words))?;
    Ok(settings_of(camera, frames, reading))
}
