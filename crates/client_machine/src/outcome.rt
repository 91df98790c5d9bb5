/// What became of a client's command.
#[derive(Clone, Copy, Debug, PartialEq, Eq)]
pub enum Outcome {
    /// The command with this request number is outstanding.
    Waiting(u16),
    /// No command is outstanding.
    Idle,
    /// This event ended the command: it was acknowledged with status 0.
    Acked,
    /// This event ended the command: it was acknowledged with this status, which isn't 0.
    Refused(u16),
    /// This event ended the command with this request number: the limit of its last send has passed.
    NoAnswer(u16),
}
