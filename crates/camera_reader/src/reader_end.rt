use camera_control::ControlEnd;

/// How the reader of a camera's stream ended.
#[derive(Clone, Copy, Debug, PartialEq, Eq)]
pub enum ReaderEnd {
    /// The run word told it to.
    Stopped,
    /// Nothing came from the camera for as long as is waited.
    Silent,
    /// Control ended, or a call of a link failed.
    Ended(ControlEnd),
}
