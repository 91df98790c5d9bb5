/// How the making of a script ended.
#[derive(Clone, Copy, Debug, PartialEq, Eq)]
pub enum MakeEnd {
    /// The whole script was written.
    Done,
    /// The sink failed.
    WriteFault,
    /// Memory ran out.
    NoMemory,
}
