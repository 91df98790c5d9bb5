/// Why a record of a capture is refused.
#[derive(Clone, Copy, Debug, PartialEq, Eq)]
pub enum CaptureKind {
    /// The magic number of a header isn't one of those that are known.
    Magic,
    /// The bytes end within the record.
    Cut,
    /// The format's major version isn't the one that is known.
    Version,
    /// A length isn't one that may stand there, or two lengths that should be one differ.
    Length,
    /// An interface that isn't there, or one more than a section may have.
    Interface,
}
