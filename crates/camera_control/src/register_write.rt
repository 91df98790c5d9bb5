/// A value that is written to a register.
#[derive(Clone, Copy, Debug, Default, PartialEq, Eq)]
pub struct RegisterWrite {
    /// The register's address, a multiple of 4.
    pub register: u32,
    /// What is written.
    pub value: u32,
}
