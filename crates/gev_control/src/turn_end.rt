/// How a turn of the reader ended.
#[derive(Clone, Copy, Debug, PartialEq, Eq)]
pub enum TurnEnd {
    /// The next turn may come.
    GoesOn,
    /// A receive or a send failed.
    Fault,
    /// The command with this request number had no answer.
    NoAnswer(u16),
    /// The camera refused a command with this status.
    Refused(u16),
}
