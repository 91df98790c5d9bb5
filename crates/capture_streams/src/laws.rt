//! Laws of the definitions: the functions only carry their statements.

ghost use Rattle.capture_streams.specs.Laws.{PacketsAreCounted, StreamsAreWithin};
ghost use Rattle.capture_streams.specs.Dropped.{DroppedAreToldLast};
ghost use Rattle.capture_streams.specs.Begins.{BeginsInMilliseconds};
ghost use Rattle.capture_streams.specs.Rows.{CapturesAreListed};

/// All packets of a capture are counted, and below 18,446,744,073,709,551,615 they're the datagrams, the fragments, those of
/// which not all bytes were captured, and the others.
pub fn packets_are_counted()
    ensures { PacketsAreCounted }
{}

/// The datagrams of the streams are among those of the capture; and each leader of the capture is counted once, in a stream or
/// as one of a stream that isn't listed.
pub fn streams_are_within()
    ensures { StreamsAreWithin }
{}

/// Two captures worked out by hand, from their bytes to their lines: a packet that is sent again, and what was dropped by an
/// interface's last count, with the beginning in milliseconds since 1970.
pub fn captures_are_listed()
    ensures { CapturesAreListed }
{}

/// What is counted as dropped is what each interface of each section told last, together.
pub fn dropped_are_told_last()
    ensures { DroppedAreToldLast }
{}

/// A capture begins in the millisecond since 1970 of its first packet.
pub fn begins_in_milliseconds()
    ensures { BeginsInMilliseconds }
{}
