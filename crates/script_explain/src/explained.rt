use note_report::BlockCounts;
use script_replay::Script;

/// A script behind its header, and what was told of it.
#[derive(Drop)]
pub struct Explained {
    /// What its lines are run on.
    pub script: Script,
    /// What was told of blocks.
    pub counts: BlockCounts,
}
