use control_client::Client;

/// What the reader has of the outside, as it's lent to it: its links, its clock and its client.
#[derive(Drop)]
pub(crate) struct Lent<'s, 'm, 'c, 't, L, M, C> {
    /// The link of the stream.
    pub(crate) stream: &'s mut L,
    /// The control link.
    pub(crate) control: &'m mut M,
    /// The clock.
    pub(crate) clock: &'c mut C,
    /// The client of the control channel.
    pub(crate) client: &'t mut Client,
}
