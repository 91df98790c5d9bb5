//! What answers have in common: what was sent on a link, bytes, texts, and a word that is no row's.

use anyhow::Result;
use gev_links::{CountsFaults, MemoryLink};
use gev_types::Peer;

/// Datagrams of longer ones are printed by their length.
const SHOWN: usize = 32;

/// Prints how often a link failed, and what was sent on it: to whom, and the bytes or how many they are.
pub fn print_sent(rt: &HostRuntime, link: &MemoryLink<'_>) -> Result<()> {
    print!(rt; "\n  faults {}", link.fault_count())?;
    for (peer, bytes) in link.sent() {
        print_datagram(rt, *peer, bytes.as_slice())?;
    }
    Ok(())
}

/// Prints to whom a datagram was sent, and its bytes or how many they are.
fn print_datagram(rt: &HostRuntime, peer: Peer, bytes: &[u8]) -> Result<()> {
    print!(rt; "\n  to {:x}:{} ", peer.address, peer.port)?;
    print_bytes(rt, bytes)
}

/// Prints a datagram, or how long it is.
pub fn print_bytes(rt: &HostRuntime, bytes: &[u8]) -> Result<()> {
    if bytes.len() <= SHOWN {
        print!(rt; "0x{}", hex::encode(rt.alloc(), bytes)?.as_str())?;
    } else {
        print!(rt; "{} bytes", bytes.len())?;
    }
    Ok(())
}

/// Prints a text, each of its lines on a line of its own.
pub fn print_text(rt: &HostRuntime, text: &[u8]) -> Result<()> {
    for line in text.split(|byte| *byte == b'\n') {
        if !line.is_empty() {
            print_text_line(rt, line)?;
        }
    }
    Ok(())
}

/// Prints a line of a text.
fn print_text_line(rt: &HostRuntime, line: &[u8]) -> Result<()> {
    print!(rt; "\n  {}", str::from_utf8(line)?)?;
    Ok(())
}

/// Prints the lines of a report that tell of takes.
pub fn print_takes(rt: &HostRuntime, report: &[u8]) -> Result<()> {
    for line in report.split(|byte| *byte == b'\n') {
        if line.starts_with(b"take ") {
            print_text_line(rt, line)?;
        }
    }
    Ok(())
}

/// Prints that a row's word is none of those that stand for a call.
pub fn print_unknown(rt: &HostRuntime) -> Result<()> {
    print!(rt; "not understood")?;
    Ok(())
}
