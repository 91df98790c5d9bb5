/// How a run of a world ends. With `Done`, `NoAnswer` and `Refused` its whole text was written, else a
/// front of it.
#[derive(Clone, Copy, Debug, PartialEq, Eq)]
pub enum SoakEnd {
    /// All was sent, and nothing is on its way.
    Done,
    /// The sink failed.
    WriteFault,
    /// Memory was refused.
    NoMemory,
    /// The command with this request number had no answer after three sends.
    NoAnswer(u16),
    /// A command was refused with this status.
    Refused(u16),
}
