/// Why a text wasn't written.
#[derive(Clone, Copy, PartialEq, Eq)]
pub(crate) enum Stop {
    /// Writing failed.
    WriteFault,
    /// Memory ran out.
    NoMemory,
}
