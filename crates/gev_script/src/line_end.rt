/// Why there is no further line.
#[derive(Clone, Copy, Debug, PartialEq, Eq)]
pub enum LineEnd {
    /// More than 20,000 bytes stand before the line feed or the end.
    Long,
    /// The input ended before the line's line feed.
    NoEnd,
    /// The line's number is above 4,294,967,295.
    Many,
    /// The source failed.
    ReadFault,
}
