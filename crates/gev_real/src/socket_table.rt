//! The system's table of its UDP sockets (Linux, proc(5), `/proc/net/udp`): a line for each, with its own address in the
//! second column and the datagrams that were dropped in the last one.

use gev_types::Peer;
use std::fs::{File, Files};
use std::io::Read;

/// Where the table is.
const TABLE: &str = "/proc/net/udp";

/// How many bytes of it are read at a time.
const PIECE: usize = 4096;

/// How often that is done.
const PIECES: u32 = 65_536;

/// The most bytes of a line.
const LINE: usize = 256;

/// Numbers of addresses are in this base.
const BASE: u32 = 16;

/// What was read of a line. One with more than `LINE` bytes is none.
#[derive(Drop)]
struct Line {
    bytes: [u8; LINE],
    count: usize,
}

impl Line {
    fn new() -> Line {
        Line {
            bytes: [0; LINE],
            count: 0,
        }
    }

    fn push(&mut self, byte: u8) {
        if let Some(place) = self.bytes.get_mut(self.count) {
            *place = byte;
        }
        self.count = self.count.saturating_add(1);
    }

    fn text(&self) -> &str {
        match self.bytes.get(..self.count) {
            Some(bytes) => str::from_utf8(bytes).unwrap_or(""),
            None => "",
        }
    }
}

/// Whether the column has this address and port. The table has the address as a number of this machine, of bytes in
/// the network's order.
fn is_at(column: &str, own: Peer) -> bool {
    let Some((address, port)) = column.split_once(':') else {
        return false;
    };
    let number = u32::from_ne_bytes(own.address.to_be_bytes());
    u32::from_str_radix(address, BASE) == Ok(number)
        && u16::from_str_radix(port, BASE) == Ok(own.port)
}

/// The datagrams that were dropped by a line, where it's that of the socket at this address.
fn drops_in(line: &str, own: Peer) -> Option<u64> {
    let mut columns = line.split_ascii_whitespace();
    let address = columns.nth(1)?;
    if !is_at(address, own) {
        return None;
    }
    columns.last()?.parse().ok()
}

/// Reads on: the datagrams that were dropped, where a line of the socket at this address ends in these bytes.
fn drops_among(line: &mut Line, bytes: &[u8], own: Peer) -> Option<u64> {
    for byte in bytes {
        if *byte == b'\n' {
            let dropped = drops_in(line.text(), own);
            if dropped.is_some() {
                return dropped;
            }
            *line = Line::new();
        } else {
            line.push(*byte);
        }
    }
    None
}

/// How many datagrams the system dropped of the socket at this address, where it tells.
pub(crate) fn drops_at<R: Files>(files: &R, own: Peer) -> Option<u64> {
    let mut table = File::open(files, TABLE).ok()?;
    let mut piece = [0; PIECE];
    let mut line = Line::new();
    for _ in 0..PIECES {
        let count = table.read(&mut piece).ok()?;
        if count == 0 {
            return None;
        }
        let dropped = drops_among(&mut line, &piece[..count], own);
        if dropped.is_some() {
            return dropped;
        }
    }
    None
}
