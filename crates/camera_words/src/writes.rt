ghost use Rattle.std.specs.Prelude.{◌≡◌, ◌≤◌, length, Some};
ghost use Rattle.camera_words.specs.Parts.{behind_byte};
ghost use Rattle.camera_words.specs.Writes.{equals_sign, begins_hex, padded, hex_number, register_number, is_own, may_write, write_by, write_at, write_in, stage_in};

use crate::parts::{before_byte, behind_byte, is};
use crate::register_write::{RegisterWrite, Stage};
use byteorder::{BigEndian, ByteOrder};
use gev_script::number_in;

/// The most hex digits of a number.
const MOST_DIGITS: usize = 8;

fn begins_hex(word: &[u8]) -> bool
    ensures { result ≡ begins_hex word.now }
{
    2 <= word.len() && word[0] == b'0' && word[1] == b'x'
}

/// The digits with zeros in front, so that there are eight.
fn padded(digits: &[u8]) -> [u8; MOST_DIGITS]
    requires { length digits.now ≤ 8 }
    ensures { result ≡ padded digits.now }
{
    let mut filled = *b"00000000";
    filled[MOST_DIGITS - digits.len()..].copy_from_slice(digits);
    filled
}

/// The number that one to eight hex digits of either case spell.
fn hex_number(digits: &[u8]) -> Option<u32>
    ensures { result ≡ hex_number digits.now }
{
    if digits.is_empty() || digits.len() > MOST_DIGITS {
        return None;
    }
    let filled = padded(digits);
    let mut bytes = [0; 4];
    match hex::decode_to_slice(&filled, &mut bytes) {
        Ok(()) => Some(BigEndian::read_u32(&bytes)),
        Err(_) => None,
    }
}

/// The number that a word is: `0x` and hex digits, or decimal without leading zeros.
pub(crate) fn register_number(word: &[u8]) -> Option<u32>
    ensures { result ≡ register_number word.now }
{
    if begins_hex(word) {
        return hex_number(&word[2..]);
    }
    match number_in(0, 4_294_967_295, word) {
        Ok(number) => Some(number as u32),
        Err(_) => None,
    }
}

/// Whether the program writes this register by itself.
fn is_own(register: u32) -> bool
    ensures { result ≡ is_own register }
{
    register == 0x0a00 || register == 0x0d00 || register == 0x0d04 || register == 0x0d18
}

fn may_write(register: u32) -> bool
    ensures { result ≡ may_write register }
{
    register % 4 == 0 && !is_own(register)
}

fn write_by(stage: Stage, register: Option<u32>, value: Option<u32>) -> Option<RegisterWrite>
    ensures { result ≡ write_by stage register value }
{
    let Some(register) = register else {
        return None;
    };
    let Some(value) = value else {
        return None;
    };
    if may_write(register) {
        Some(RegisterWrite {
            stage,
            register,
            value,
        })
    } else {
        None
    }
}

/// The write at this stage that `<register>=<value>` is.
pub(crate) fn write_in(stage: Stage, text: &[u8]) -> Option<RegisterWrite>
    ensures { result ≡ write_in stage text.now }
{
    match behind_byte(b'=', text) {
        Some(value) => write_by(
            stage,
            register_number(before_byte(b'=', text)),
            register_number(value),
        ),
        None => None,
    }
}

/// The stage that a word names.
pub(crate) fn stage_in(word: &[u8]) -> Option<Stage>
    ensures { result ≡ stage_in word.now }
{
    if is(word, b"set") {
        Some(Stage::Set)
    } else if is(word, b"start") {
        Some(Stage::Start)
    } else if is(word, b"stop") {
        Some(Stage::Stop)
    } else {
        None
    }
}
