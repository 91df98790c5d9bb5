//! Laws of the grammar. Each function only carries its statement.

ghost use Rattle.gev_script.specs.Laws.{SpelledIsRead, ReadIsSpelled, KindsOfLines};

/// The spelling of a line is read as that line.
pub fn spelled_is_read()
    ensures { SpelledIsRead }
{}

/// Bytes that are read as a line are the spelling of it, and of no other.
pub fn read_is_spelled()
    ensures { ReadIsSpelled }
{}

/// A line is refused as a header exactly where its first word is a header's and it isn't that header,
/// and never for its length, its number or its end.
pub fn kinds_of_lines()
    ensures { KindsOfLines }
{}
