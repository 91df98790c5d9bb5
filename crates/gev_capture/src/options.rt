//! The options of an interface: the resolution of its times, and how many packets were dropped.

ghost use Rattle.std.specs.Prelude.{◌≡◌, ◌+◌, ◌-◌, ◌*◌, ◌/◌, ◌≤◌, ◌<◌, ◌||◌, ◌&&◌, ◌==◌, false, None, length, drop};
ghost use Rattle.gev_capture.specs.Numbers.{number};
ghost use Rattle.gev_capture.specs.Files.{option_size, is_resolution, with_option, has_ended, resolution, parts_of, is_dropped, with_dropped, told_dropped};

use crate::numbers::{u16_in, u64_in};
use crate::order::Order;

/// The bytes of an option's code and length.
const OPTION_HEADER_SIZE: usize = 4;

/// The code of the option that tells the resolution of an interface's times.
const RESOLUTION_CODE: u16 = 9;

/// The code of the option that tells how many packets were dropped.
const DROPPED_CODE: u16 = 5;

/// The resolution of microseconds, which is meant where none is told.
const MICROSECONDS: u8 = 6;

/// Whether no option stands there: none fits, or the code 0 ends them.
fn has_ended(order: Order, bytes: &[u8]) -> bool
    ensures { result ≡ has_ended order bytes.now }
{
    bytes.len() < OPTION_HEADER_SIZE
        || u16_in(order, bytes, 0) == 0
        || bytes.len() < OPTION_HEADER_SIZE + usize::from(u16_in(order, bytes, 2))
}

/// Whether the first option tells the resolution.
fn is_resolution(order: Order, bytes: &[u8]) -> bool
    requires { 4 ≤ length bytes.now }
    ensures { result ≡ is_resolution order bytes.now }
{
    u16_in(order, bytes, 0) == RESOLUTION_CODE && u16_in(order, bytes, 2) == 1
}

/// The resolution behind the first option.
fn with_option(order: Order, r: u8, bytes: &[u8]) -> u8
    requires { has_ended order bytes.now ≡ false }
    ensures { result ≡ with_option order r bytes.now }
{
    if is_resolution(order, bytes) {
        bytes[4]
    } else {
        r
    }
}

/// What stands behind the first option.
fn behind(order: Order, bytes: &[u8]) -> &[u8]
    requires { 4 ≤ length bytes.now }
    ensures { result.now ≡ drop (option_size order bytes.now) bytes.now }
{
    let size = OPTION_HEADER_SIZE + (usize::from(u16_in(order, bytes, 2)) + 3) / 4 * 4;
    if size < bytes.len() {
        &bytes[size..]
    } else {
        &[]
    }
}

/// The resolution that the options tell, the last one that tells it.
pub(crate) fn resolution(order: Order, options: &[u8]) -> u8
    ensures { result ≡ resolution (length options.now) order 6 options.now }
{
    let mut r = MICROSECONDS;
    let mut rest = options;
    'options: while !has_ended(order, rest) {
        r = with_option(order, r, rest);
        rest = behind(order, rest);
    }
    r
}

/// Whether the first option tells how many packets were dropped.
fn is_dropped(order: Order, bytes: &[u8]) -> bool
    requires { 4 ≤ length bytes.now }
    ensures { result ≡ is_dropped order bytes.now }
{
    u16_in(order, bytes, 0) == DROPPED_CODE && u16_in(order, bytes, 2) == 8
}

/// How many packets were dropped, as it's known behind the first option.
fn with_dropped(order: Order, found: Option<u64>, bytes: &[u8]) -> Option<u64>
    requires { has_ended order bytes.now ≡ false }
    ensures { result ≡ with_dropped order found bytes.now }
{
    if is_dropped(order, bytes) {
        Some(u64_in(order, bytes, 4))
    } else {
        found
    }
}

/// How many packets were dropped by the options, the last one that tells it.
pub(crate) fn dropped(order: Order, options: &[u8]) -> Option<u64>
    ensures { result ≡ told_dropped order options.now }
{
    let mut found = None;
    let mut rest = options;
    'options: while !has_ended(order, rest) {
        found = with_dropped(order, found, rest);
        rest = behind(order, rest);
    }
    found
}

/// Into how many parts a second is divided by a resolution.
pub(crate) fn parts_of(r: u8) -> u64
    ensures value { result ≡ parts_of r }
    ensures some { 1 ≤ result }
{
    if r <= 19 {
        10u64.pow(u32::from(r))
    } else if 128 <= r && r <= 191 {
        2u64.pow(u32::from(r) - 128)
    } else {
        1_000_000
    }
}
