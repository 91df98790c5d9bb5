/// Why a line of a script is refused. The kinds are tested in the order Long, NoEnd, Many, Header,
/// Word, Number, Hex, and the first that fits is given.
#[derive(Clone, Copy, Debug, PartialEq, Eq)]
pub enum ScriptKind {
    /// It begins as a header does, or is the first line, and is no header.
    Header,
    /// The first word isn't known, the number of words is wrong, or a step has no such act.
    Word,
    /// A number isn't in decimal without a leading zero, or is out of its range.
    Number,
    /// The digits aren't lower-case hex digits, two a byte, of at least one byte.
    Hex,
    /// More than 20,000 bytes stand before the line feed or the end.
    Long,
    /// The input ended before the line's line feed.
    NoEnd,
    /// The line's number is above 4,294,967,295.
    Many,
}
