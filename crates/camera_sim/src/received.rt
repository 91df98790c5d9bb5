use gev_types::Peer;
use gvcp_wire::{Command, CommandHead};

/// A command that reached the control port. Its bytes are lent from the datagram.
#[derive(Clone, Copy)]
pub(crate) struct Received<'a> {
    /// Who sent it.
    pub peer: Peer,
    /// All bytes of the datagram.
    pub bytes: &'a [u8],
    /// When it came, in milliseconds.
    pub moment: u64,
    /// Its header.
    pub head: CommandHead,
    /// What it asks, and None where its body hasn't the form of its code.
    pub command: Option<Command<'a>>,
}
