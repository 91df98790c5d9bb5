/// Why the text of a buffer wasn't written.
#[derive(Clone, Copy)]
pub(crate) enum WriteStop {
    /// Writing failed, behind a front of the text.
    WriteFault,
    /// Memory ran out. Nothing was written.
    NoMemory,
}
