/// How a worker of the reader ended: the setup of the camera, or the acquisition's turns.
#[derive(Clone, Copy, Debug, PartialEq, Eq)]
pub enum AcqEnd {
    /// Of the setup, all its commands were acknowledged; of the turns, the acquisition doesn't run any more.
    Stopped,
    /// It made all its turns.
    Spent,
    /// A receive or a send failed.
    Fault,
    /// The command with this request number had no answer.
    NoAnswer(u16),
    /// The camera refused a command with this status.
    Refused(u16),
}
