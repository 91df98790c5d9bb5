use gev_script::ScriptKind;

/// How the run of a script ended.
#[derive(Clone, Copy, Debug, PartialEq, Eq)]
pub enum Ending {
    /// The script's last line was run and its report written.
    Done,
    /// This line, counted from 1, is the first that is refused.
    BadLine { line: u64, kind: ScriptKind },
    /// The source failed.
    ReadFault,
    /// The sink failed.
    WriteFault,
    /// Memory ran out.
    NoMemory,
}
