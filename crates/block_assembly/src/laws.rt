//! Laws over the definitions, each the contract of a function with nothing to do.

ghost use Rattle.block_assembly.specs.Laws.{AccountsAgree, VerdictsTell};
ghost use Rattle.block_assembly.specs.PacketIds.{ArePacketIds};

/// A packet is kept exactly where the list of kept packets grows by it, a notice exactly where it is one,
/// and a misfit exactly where it is no notice and doesn't fit.
pub fn verdicts_tell()
    ensures { VerdictsTell }
{}

/// What is told of a block that retires and the record of its buffer agree on the image, and on whether it's
/// whole.
pub fn accounts_agree()
    ensures { AccountsAgree }
{}

/// The constant of this crate is how many packet ids a block may have.
pub fn packet_ids_are_those()
    ensures { ArePacketIds }
{}
