/// How the fetch of a description ended.
#[derive(Clone, Copy, Debug, PartialEq, Eq)]
pub enum DescribeEnd {
    /// All its bytes were written.
    Done,
    /// Neither URL says that the description lies in the camera.
    NoDescription,
    /// A link couldn't be bound, or a call of it failed.
    LinkFault,
    /// Writing failed.
    WriteFault,
    /// The command with this request number had no answer.
    NoAnswer(u16),
    /// The camera refused a read with this status.
    Refused(u16),
}
