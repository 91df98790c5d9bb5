use gev_script::ScriptKind;

/// Why a line wasn't run.
#[derive(Clone, Copy, Debug, PartialEq, Eq)]
pub enum Stop {
    /// The script isn't allowed this line.
    Refused(ScriptKind),
    /// Memory ran out.
    NoMemory,
}
