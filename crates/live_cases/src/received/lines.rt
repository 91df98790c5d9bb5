//! Lines of frames, and the last line.

use crate::fields::Fields;
use crate::printing::print_text;
use anyhow::Result;
use camera_words::LineDigest;
use frame_writing::{BlockIds, ReceiveCounts, add_frame, add_receive};
use gentl_types::BufferId;
use gev_types::{BlockAccount, Buf, Cause, ImageInfo, Lost, Reasons, Record};
use std::alloc::Global;

/// An image of so many columns and rows, with this pixel format in hex, that was taken at this time; `-` tells nothing.
fn image(fields: &mut Fields<'_>) -> Option<ImageInfo> {
    let pixel = fields.word();
    if pixel == "-" {
        return None;
    }
    let pixel = u32::from_str_radix(pixel, 16).unwrap_or(0);
    let size_x = fields.small();
    let rows = fields.small();
    let timestamp = fields.number();
    Some(ImageInfo {
        timestamp,
        pixel,
        size_x,
        size_y: 9,
        rows,
        offset_x: 1,
        offset_y: 2,
        padding_x: 0,
        padding_y: 4,
    })
}

/// The cause with this word.
fn cause(word: &str) -> Option<Cause> {
    match word {
        "complete" => Some(Cause::Complete),
        "old" => Some(Cause::Old),
        "displaced" => Some(Cause::Displaced),
        "stopped" => Some(Cause::Stopped),
        _ => None,
    }
}

/// The reasons that a number tells, each by a bit, in their order from the lowest.
fn reasons(bits: u8) -> Reasons {
    Reasons {
        no_leader: bits & 1 != 0,
        small: bits & 2 != 0,
        no_trailer: bits & 4 != 0,
        no_payload: bits & 8 != 0,
        short: bits & 16 != 0,
    }
}

/// The id at a place, 0 where there is none.
fn end_at(ends: &[u64], place: usize) -> u32 {
    ends.get(place)
        .and_then(|&end| u32::try_from(end).ok())
        .unwrap_or(0)
}

/// Eight ranges, by their ends.
fn ranges(ends: &[u64]) -> [(u32, u32); 8] {
    let mut ranges = [(0, 0); 8];
    for place in 0..8usize {
        ranges[place] = (end_at(ends, 2 * place), end_at(ends, 2 * place + 1));
    }
    ranges
}

/// An account: its cause, the reasons, how many ids are lost, of how many ranges, and the ends of the first ones; another
/// word tells none.
fn account(alloc: Global, fields: &mut Fields<'_>) -> Result<Option<BlockAccount>> {
    let Some(cause) = cause(fields.word()) else {
        return Ok(None);
    };
    let why = reasons(fields.byte());
    let ids = fields.small();
    let count = fields.small();
    let first = ranges(fields.numbers(alloc)?.as_slice());
    let lost = Lost {
        ids,
        ranges: count,
        first,
    };
    Ok(Some(BlockAccount { cause, lost, why }))
}

/// The digest of a line, by its word.
fn digest(word: &str) -> LineDigest {
    if word == "none" {
        LineDigest::Omitted
    } else {
        LineDigest::Sha256
    }
}

/// A buffer of four bytes, `abcd`, with a record of this block, which is complete or not, of so many bytes and this
/// image.
pub fn buffer(alloc: Global, fields: &mut Fields<'_>) -> Result<Buf> {
    let rec = record(fields);
    buffer_of(alloc, rec)
}

/// A buffer of four bytes, `abcd`, with this record.
fn buffer_of(alloc: Global, rec: Record) -> Result<Buf> {
    let mut buf = Buf::new(alloc, 4)?;
    buf.put(0, b"abcd");
    if buf.bytes().len() == 4 && rec.data_len <= 4 && rec.filled <= 4 {
        buf.set_rec(rec);
    }
    Ok(buf)
}

/// A record of this block, which is complete or not, of so many bytes, four at most, and this image.
fn record(fields: &mut Fields<'_>) -> Record {
    let block = fields.number();
    let complete = fields.byte() == 1;
    let len = fields.small().min(4);
    let image = image(fields);
    Record {
        block,
        complete,
        larger: false,
        has_leader: image.is_some(),
        data_len: len,
        filled: len,
        image,
        account: None,
    }
}

/// The line of a buffer at this place, of this generation, with or without a digest, by its record and its account.
pub fn frame(rt: &HostRuntime, fields: &mut Fields<'_>) -> Result<()> {
    let alloc = rt.alloc();
    let place = fields.byte();
    let generation = fields.small();
    let mut rec = record(fields);
    let digest = digest(fields.word());
    rec.account = account(alloc, fields)?;
    let buf = buffer_of(alloc, rec)?;
    let mut out = Vec::new(alloc);
    add_frame(&mut out, BufferId { place, generation }, &buf, digest)?;
    print_text(rt, out.as_slice())
}

/// The last line, by its numbers; the block ids by a word.
pub fn receive(rt: &HostRuntime, fields: &mut Fields<'_>) -> Result<()> {
    let counts = counts(fields);
    let mut out = Vec::new(rt.alloc());
    add_receive(&mut out, &counts)?;
    print_text(rt, out.as_slice())
}

/// What the last line tells, by the next fields.
fn counts(fields: &mut Fields<'_>) -> ReceiveCounts {
    ReceiveCounts {
        frames: fields.small(),
        taken: fields.small(),
        complete: fields.small(),
        p: fields.small(),
        bytes: fields.small(),
        ids: block_ids(fields.word()),
        underrun: fields.number(),
        requests: fields.number(),
        foreign: fields.number(),
        late: fields.number(),
        repeat: fields.number(),
        misfit: fields.number(),
        starved: fields.number(),
        notice: fields.number(),
        strangers: fields.number(),
    }
}

/// The kind of a stream's block ids, by its word.
fn block_ids(word: &str) -> BlockIds {
    match word {
        "standard" => BlockIds::Standard,
        "extended" => BlockIds::Extended,
        _ => BlockIds::Unknown,
    }
}
