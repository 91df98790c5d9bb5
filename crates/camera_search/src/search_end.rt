/// How a search for cameras ended.
#[derive(Clone, Copy, Debug, PartialEq, Eq)]
pub enum SearchEnd {
    /// Its time was over, and the last line was written.
    Done,
    /// A link couldn't be bound, or a call of it failed.
    LinkFault,
    /// Writing failed.
    WriteFault,
    /// Memory ran out.
    NoMemory,
}
