use gvcp_wire::Resend;

/// A request that waits to be sent.
#[derive(Clone, Copy, PartialEq, Eq)]
pub(crate) struct Asked {
    /// Its request number, from 1 on.
    pub(crate) number: u16,
    /// What it asks for.
    pub(crate) resend: Resend,
}
