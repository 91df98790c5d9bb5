use crate::host::Host;
use crate::turn::Turn;
use acquisition_machine::Counts;
use gev_control::AcqEnd;

/// What the worker that acquires gives back beside its pass.
#[derive(Drop)]
pub struct Acquired<S, M, C> {
    /// Its links, its clock and its client.
    pub host: Host<S, M, C>,
    /// An entry for each turn; with lanes none.
    pub journal: Vec<Turn>,
    /// What its receivers counted together.
    pub counts: Counts,
    /// With lanes, how many datagrams found no free cell of theirs.
    pub shed: Option<u64>,
    /// How the setup ended where it wasn't done, else how the turns ended.
    pub end: AcqEnd,
}
