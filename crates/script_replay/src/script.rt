use crate::running::Running;
use crate::widening::Widening;

/// A script behind its header.
#[derive(Drop)]
pub struct Script {
    /// What its lines are run on.
    pub running: Running,
    /// What is kept beside it.
    pub widening: Widening,
}
