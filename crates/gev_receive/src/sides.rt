use frame_writing::Outlet;
use gev_acq::Host;

/// The two sides of a run: what the host works with, and what the application does.
#[derive(Drop)]
pub(crate) struct Sides<S: Drop, M: Drop, C: Drop> {
    /// The host's.
    pub(crate) host: Host<S, M, C>,
    /// The application's.
    pub(crate) outlet: Outlet<C, C>,
}
