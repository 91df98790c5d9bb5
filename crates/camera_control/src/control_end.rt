/// Why a camera wasn't taken, or its control ended before its time.
#[derive(Clone, Copy, Debug, PartialEq, Eq)]
pub enum ControlEnd {
    /// A call of the control link failed.
    LinkFault,
    /// The command with this request number had no answer.
    NoAnswer(u16),
    /// The camera refused a read or a write of one register.
    RefusedAt {
        /// The register's address.
        register: u32,
        /// The status of the acknowledge, which isn't 0.
        status: u16,
    },
    /// Another application controls the camera.
    Controlled,
    /// A heartbeat told that the camera has let its controller go.
    ControlLost,
}
