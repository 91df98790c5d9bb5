//! Standard identifiers: datagrams widened, block ids and requests.

ghost use Rattle.std.specs.Prelude.{◌≤◌, IfSome, IfOk};

use crate::control::asking;
use crate::words::{bytes_of, number};
use gvsp_std::{StdError, Widener, write_resend_std};
use gvsp_wire::parse;
use std::alloc::Global;
use std::fmt::Write;
use std::str::SplitWhitespace;

/// The room for a datagram that is widened.
const ROOM: usize = 80;

/// Datagrams, one after the other: what each becomes, or the refusal and its text, and the greatest block.
pub fn widened(alloc: Global, words: &mut SplitWhitespace<'_>) -> Option<String> {
    let mut widener = Widener::new();
    let mut text = String::new(alloc);
    for word in words {
        add_widened(alloc, &mut widener, word, &mut text)?;
    }
    let top = widener.top();
    format!(in alloc; "{text}top {top}").ok()
}

/// Adds what a datagram becomes.
fn add_widened(alloc: Global, widener: &mut Widener, word: &str, text: &mut String) -> Option<()> {
    let bytes = bytes_of(alloc, word)?;
    let mut out = [0xEE; ROOM];
    match widen(widener, bytes.as_slice(), &mut out)? {
        Ok(len) => add_digits(alloc, &out[..len], text),
        Err(refusal) => write!(text, "{refusal:?}: {refusal}; ").ok(),
    }
}

/// Adds bytes in hexadecimal digits.
fn add_digits(alloc: Global, bytes: &[u8], text: &mut String) -> Option<()> {
    let digits = hex::encode(alloc, bytes).ok()?;
    write!(text, "{digits}; ").ok()
}

/// The block ids of payloads, one after the other: the block that each names, or the refusal.
pub fn blocks(alloc: Global, words: &mut SplitWhitespace<'_>) -> Option<String> {
    let mut widener = Widener::new();
    let mut text = String::new(alloc);
    for word in words {
        add_block(&mut widener, word.parse::<u16>().ok()?, &mut text)?;
    }
    let top = widener.top();
    format!(in alloc; "{text}top {top}").ok()
}

/// Adds the block that a payload with this block id names.
fn add_block(widener: &mut Widener, id: u16, text: &mut String) -> Option<()> {
    let [high, low] = id.to_be_bytes();
    let payload = [0, 0, high, low, 3, 0, 0, 1, 0x61];
    let mut out = [0xEE; ROOM];
    match widen(widener, &payload, &mut out)? {
        Ok(len) => {
            let block = parse(&out[..len]).ok()?.head().block;
            write!(text, "{block} ").ok()
        }
        Err(refusal) => write!(text, "{refusal:?} ").ok(),
    }
}

/// Widens a datagram that fits.
fn widen(
    widener: &mut Widener,
    bytes: &[u8],
    out: &mut [u8; ROOM],
) -> Option<Result<usize, StdError>>
    ensures { IfSome result (λ widened. IfOk widened (λ len. len ≤ 80)) }
{
    if widener.top() > 1 << 63 || bytes.len() > ROOM - 12 {
        return None;
    }
    Some(widener.widen(bytes, out))
}

/// A block: its id of 16 bits.
pub fn narrow(alloc: Global, words: &mut SplitWhitespace<'_>) -> Option<String> {
    let block = number(words)?;
    if block == 0 {
        return None;
    }
    let id = gvsp_std::narrow(block);
    format!(in alloc; "{id}").ok()
}

/// A request number, a channel, the first and the last packet id and a block: PACKETRESEND with standard
/// identifiers.
pub fn standard_resend(alloc: Global, words: &mut SplitWhitespace<'_>) -> Option<String> {
    let (req, resend) = asking(words)?;
    if resend.block == 0 || resend.first >= 1 << 24 || resend.last >= 1 << 24 {
        return None;
    }
    let mut out = [0xEE; 20];
    write_resend_std(&mut out, req, resend);
    hex::encode(alloc, out.as_slice()).ok()
}
