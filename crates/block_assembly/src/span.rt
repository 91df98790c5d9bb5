ghost use Rattle.std.specs.Prelude.{◌≡◌, ◌+◌, ◌-◌, ◌≤◌, ◌<◌, min, nat_lt};
ghost use Rattle.stream_packets.specs.FramePackets.{payload_start};
ghost use Rattle.block_image.specs.Sizes.{IsPayloadSize, IsBufferSize};
ghost use Rattle.block_assembly.specs.Steps.{end_inside, count_inside};

use block_image::start_of_payload;

/// What a payload places in a buffer.
#[derive(Clone, Copy, PartialEq, Eq)]
pub(crate) struct Span {
    /// Where its first byte goes, the buffer's size where that is past the buffer.
    pub start: u32,
    /// How many bytes lie in the buffer.
    pub count: u32,
    /// The end of these bytes, 0 if none lie there.
    pub end: u32,
    /// Where its place goes on behind it, the buffer's size where that is past the buffer.
    pub rest: u32,
    /// Whether the payload reaches past the buffer.
    pub past: bool,
}

/// What the payload with this id and length places.
pub(crate) fn span_of(payload_size: u32, size: u32, id: u32, len: usize) -> Span
    requires payload_size { IsPayloadSize payload_size }
    requires size { IsBufferSize size }
    requires short { len ≤ payload_size }
    requires some { 1 ≤ len }
    ensures start { result.start ≡ min (payload_start payload_size id) size }
    ensures count { result.count ≡ count_inside (payload_start payload_size id) len size }
    ensures end { result.end ≡ end_inside (payload_start payload_size id) len size }
    ensures rest { result.rest ≡ min (payload_start payload_size id + len) size }
    ensures past { result.past ≡ nat_lt size (payload_start payload_size id + len) }
{
    let start = start_of_payload(payload_size, id);
    let stop = start + len as u64;
    let limit = u64::from(size);
    let first = start.min(limit) as u32;
    let last = stop.min(limit) as u32;
    Span {
        start: first,
        count: last - first,
        end: if first < size { last } else { 0 },
        rest: last,
        past: limit < stop,
    }
}
