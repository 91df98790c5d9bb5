ghost use Rattle.std.specs.Prelude.{◌≡◌, [], ◌∷◌, map, All, OnOk};
ghost use Rattle.gev_script.specs.Lines.{view};
ghost use Rattle.gev_script.specs.Spelling.{IsScriptLine};
ghost use Rattle.gev_make.specs.MakeText.{text_of, datagram_line, FitsLine, opening_lines, turn_lines, closing_lines};
ghost use Rattle.gev_make.specs.Writing.{Writes};

use crate::packets::{PACKET_SIZE, PAYLOAD_SIZE};
use crate::stop::Stop;
use gev_links::{Sink, write_all};
use gev_script::{Line, write_line};
use lossy_queue::{Datagram, LossyQueue};
use std::alloc::Global;

/// The bytes of the longest line, which is that of a payload, with its line feed.
pub(crate) const LINE_SIZE: usize = 2 + 2 * PACKET_SIZE + 1;

/// The bytes of a buffer, which holds an image.
const BUFFER_SIZE: u64 = 3072;

/// The GenTL number of the operation that queues each buffer that isn't.
const UNQUEUED_TO_INPUT: u32 = 3;

/// Makes the text of a line, with its line feed.
fn spell(alloc: Global, line: &Line<'_>, text: &mut Vec<u8>) -> Result<(), gev_types::NoMemory>
    requires { IsScriptLine (view line.now) }
    ensures { OnOk result (text.new.items ≡ text_of (view line.now ∷ [])) }
{
    text.clear();
    write_line(alloc, line, text)?;
    text.push(b'\n')?;
    Ok(())
}

/// Writes a line.
fn write_one<K: Sink>(
    alloc: Global,
    line: &Line<'_>,
    text: &mut Vec<u8>,
    sink: &mut K,
) -> Result<(), Stop>
    requires { IsScriptLine (view line.now) }
    ensures { Writes result (K.written sink.old) (K.written sink.new) (K.faults sink.old) (K.faults sink.new)
        (text_of (view line.now ∷ [])) }
{
    spell(alloc, line, text)?;
    write_all(sink, text.as_slice())?;
    Ok(())
}

/// Writes lines one after the other.
fn write_lines<K: Sink>(
    alloc: Global,
    lines: &[Line<'_>],
    text: &mut Vec<u8>,
    sink: &mut K,
) -> Result<(), Stop>
    requires { All IsScriptLine (map view lines.now) }
    ensures { Writes result (K.written sink.old) (K.written sink.new) (K.faults sink.old) (K.faults sink.new)
        (text_of (map view lines.now)) }
{
    for line in lines {
        write_one(alloc, line, text, sink)?;
    }
    Ok(())
}

/// Writes what stands before the first block: a receiver's numbers, four buffers, and the start.
pub(crate) fn write_opening<K: Sink>(
    alloc: Global,
    text: &mut Vec<u8>,
    sink: &mut K,
) -> Result<(), Stop>
    ensures { Writes result (K.written sink.old) (K.written sink.new) (K.faults sink.old) (K.faults sink.new)
        (text_of opening_lines) }
{
    let header = Line::Header {
        version: 1,
        p: PAYLOAD_SIZE as u32,
        window: 2,
        timeout: 200,
        age: 20,
        rounds: 3,
    };
    let announce = Line::Announce { size: BUFFER_SIZE };
    let flush = Line::Flush {
        operation: UNQUEUED_TO_INPUT,
    };
    let lines = [
        header,
        announce,
        announce,
        announce,
        announce,
        flush,
        Line::Start,
    ];
    write_lines(alloc, &lines, text, sink)
}

/// Writes what stands after the datagrams of a block: time goes on, a buffer is taken, and queued again.
pub(crate) fn write_turn<K: Sink>(
    alloc: Global,
    block: u32,
    text: &mut Vec<u8>,
    sink: &mut K,
) -> Result<(), Stop>
    ensures { Writes result (K.written sink.old) (K.written sink.new) (K.faults sink.old) (K.faults sink.new)
        (text_of (turn_lines block)) }
{
    let tick = Line::Tick {
        moment: 250 * u64::from(block),
    };
    let flush = Line::Flush {
        operation: UNQUEUED_TO_INPUT,
    };
    write_lines(alloc, &[tick, Line::Take, flush], text, sink)
}

/// Writes what stands after the last block.
pub(crate) fn write_closing<K: Sink>(
    alloc: Global,
    text: &mut Vec<u8>,
    sink: &mut K,
) -> Result<(), Stop>
    ensures { Writes result (K.written sink.old) (K.written sink.new) (K.faults sink.old) (K.faults sink.new)
        (text_of closing_lines) }
{
    write_lines(alloc, &[Line::Stop { flags: 0 }, Line::End], text, sink)
}

/// Writes the line of a datagram.
fn write_datagram<K: Sink>(
    alloc: Global,
    datagram: &Datagram,
    text: &mut Vec<u8>,
    sink: &mut K,
) -> Result<(), Stop>
    requires { FitsLine datagram.now }
    ensures { Writes result (K.written sink.old) (K.written sink.new) (K.faults sink.old) (K.faults sink.new)
        (text_of (datagram_line datagram.now ∷ [])) }
{
    let bytes = datagram.bytes.as_slice();
    let mut digits = [0; 2 * PACKET_SIZE];
    let hex = &mut digits[..2 * bytes.len()];
    hex::encode_to_slice(bytes, hex).unwrap();
    write_one(alloc, &Line::Datagram { hex }, text, sink)
}

/// Empties a queue and writes the lines of its datagrams.
pub(crate) fn write_datagrams<K: Sink>(
    alloc: Global,
    queue: &mut LossyQueue,
    text: &mut Vec<u8>,
    sink: &mut K,
) -> Result<(), Stop>
    requires { All FitsLine queue.old }
    ensures written { Writes result (K.written sink.old) (K.written sink.new) (K.faults sink.old) (K.faults sink.new)
        (text_of (map datagram_line queue.old)) }
    ensures emptied { OnOk result (queue.new ≡ []) }
{
    while let Some(datagram) = queue.pop() {
        write_datagram(alloc, &datagram, text, sink)?;
    }
    Ok(())
}
