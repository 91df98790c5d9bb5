/// Why accesses to a camera's registers ended before their end, or what failed at it.
#[derive(Clone, Copy, Debug, PartialEq, Eq)]
pub enum RegisterFault {
    /// A link couldn't be bound, or a call of it failed.
    LinkFault,
    /// Writing failed.
    WriteFault,
    /// The command with this request number had no answer.
    NoAnswer(u16),
    /// The camera refused a read or a write of one register.
    RefusedAt {
        /// The register's address.
        register: u32,
        /// The status of the acknowledge, which isn't 0.
        status: u16,
    },
    /// Another application controls the camera.
    Controlled,
}
