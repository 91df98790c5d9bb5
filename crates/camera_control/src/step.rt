/// A step by which a camera is taken or let go: at most one command (GigE Vision 2.0, GVCP: READREG, WRITEREG of one
/// register).
#[derive(Clone, Copy, Debug, PartialEq, Eq)]
pub enum Step {
    /// READREG of the control channel privilege: another application may have it.
    Ask,
    /// READREG of a register. Where it's refused the next step comes all the same.
    Read {
        /// The register's address.
        register: u32,
    },
    /// WRITEREG of a register, which has to be acknowledged.
    Write {
        /// The register's address.
        register: u32,
        /// What is written.
        value: u32,
    },
    /// WRITEREG of a register. Where it's refused the next step comes all the same.
    Stop {
        /// The register's address.
        register: u32,
        /// What is written.
        value: u32,
    },
    /// The command that is outstanding is waited for.
    Await {
        /// Whether it's a heartbeat.
        heartbeat: bool,
    },
}
