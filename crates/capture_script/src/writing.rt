//! The lines of the script, each added with its line feed.

ghost use Rattle.std.specs.Prelude.{◌≡◌, ◌≤◌, ◌<◌, ◌++◌, ◌∷◌, [], length, OnOk};
ghost use Rattle.hex.specs.Hex.{encode_lower};
ghost use Rattle.gev_script.specs.Lines as script_line;
ghost use Rattle.gev_script.specs.Spelling.{IsDatagram};
ghost use Rattle.capture_script.specs.Script.{text_of, header_line, announce_lines, opening_lines, taking};

use gev_script::Line;
use gev_types::NoMemory;
use std::alloc::Global;
use take_lines::add_line;

/// The GenTL number of the operation that queues each buffer that isn't.
const UNQUEUED_TO_INPUT: u32 = 3;

/// How many buffers a script announces: one more than blocks may be open.
const BUFFERS: usize = 5;

/// Adds the header of a script whose payloads have at most `p` bytes.
fn add_header(alloc: Global, p: u32, out: &mut Vec<u8>) -> Result<(), NoMemory>
    requires p_some { 528 ≤ p }
    requires p_most { p ≤ 8964 }
    ensures { OnOk result (out.new.items ≡ out.old.items ++ text_of (header_line p ∷ [])) }
{
    let header = Line::Header {
        version: 2,
        p,
        window: 4,
        timeout: 200,
        age: 20,
        rounds: 0,
    };
    add_line(alloc, &header, out)
}

/// Adds the line that queues each buffer that isn't.
fn add_flush(alloc: Global, out: &mut Vec<u8>) -> Result<(), NoMemory>
    ensures { OnOk result (out.new.items ≡ out.old.items ++ text_of (script_line.flush 3 ∷ [])) }
{
    let flush = Line::Flush {
        operation: UNQUEUED_TO_INPUT,
    };
    add_line(alloc, &flush, out)
}

/// Adds a line for each of so many buffers of this size.
fn add_announces(alloc: Global, count: usize, size: u32, out: &mut Vec<u8>) -> Result<(), NoMemory>
    ensures { OnOk result (out.new.items ≡ out.old.items ++ text_of (announce_lines count size)) }
{
    let announce = Line::Announce { size: size as u64 };
    for _ in 0..count {
        add_line(alloc, &announce, out)?;
    }
    Ok(())
}

/// Adds what stands before the first datagram: a receiver's numbers, five buffers, and the start.
pub(crate) fn add_opening(
    alloc: Global,
    p: u32,
    size: u32,
    out: &mut Vec<u8>,
) -> Result<(), NoMemory>
    requires p_some { 528 ≤ p }
    requires p_most { p ≤ 8964 }
    ensures { OnOk result (out.new.items ≡ out.old.items ++ text_of (opening_lines p size)) }
{
    add_header(alloc, p, out)?;
    add_announces(alloc, BUFFERS, size, out)?;
    add_flush(alloc, out)?;
    add_line(alloc, &Line::Start, out)
}

/// Adds the takes of so many buffers that were filled, which then go back.
pub(crate) fn add_takes(alloc: Global, filled: u8, out: &mut Vec<u8>) -> Result<(), NoMemory>
    ensures { OnOk result (out.new.items ≡ out.old.items ++ text_of (taking filled)) }
{
    if filled == 0 {
        return Ok(());
    }
    take_lines::add_takes(alloc, filled as usize, out)?;
    add_flush(alloc, out)
}

/// Adds the line of a datagram, whose digits come into the room.
pub(crate) fn add_datagram(
    alloc: Global,
    bytes: &[u8],
    room: &mut [u8],
    out: &mut Vec<u8>,
) -> Result<(), NoMemory>
    requires few { length bytes.now ≤ 9999 }
    requires fits { IsDatagram (encode_lower bytes.now) }
    requires room { 19998 ≤ length room.old }
    ensures { OnOk result (out.new.items ≡ out.old.items ++ text_of (script_line.datagram (encode_lower bytes.now) ∷ [])) }
{
    let hex = &mut room[..2 * bytes.len()];
    hex::encode_to_slice(bytes, hex).unwrap();
    add_line(alloc, &Line::Datagram { hex }, out)
}
