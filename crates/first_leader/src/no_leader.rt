use camera_control::ControlEnd;

/// Why no leader came.
#[derive(Clone, Copy, Debug, PartialEq, Eq)]
pub enum NoLeader {
    /// None came within the time.
    Silent,
    /// Standard input has ended.
    InputEnded,
    /// Control ended, or a call of a link failed.
    Ended(ControlEnd),
}
