use gev_types::Peer;

/// What a receive of a link in memory gave.
#[derive(Clone, Copy)]
pub(crate) enum Reception<'a> {
    Nothing,
    Failed,
    Came(&'a [u8], Peer),
}
