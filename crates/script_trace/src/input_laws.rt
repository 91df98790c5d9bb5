//! Laws over the definitions, each the contract of a function with nothing to do.

ghost use Rattle.script_trace.specs.InputLaws.{BlocksAreAccounted, CountsAreAccounted, NotesAreReasoned, OpenedAreAccounted};
ghost use Rattle.script_trace.specs.WorkedInputs.{NotesAreWorked};

/// The counts of an acquisition are those of its notes: of each reason for which a datagram was ignored,
/// of the claims that found no buffer, and of the requests.
pub fn counts_are_accounted()
    ensures { CountsAreAccounted }
{}

/// Each block id of an acquisition, from that of the first block that retired to that of the last, stands in
/// exactly one note of a block that retired or of absent blocks, and no other id stands in any.
pub fn blocks_are_accounted()
    ensures { BlocksAreAccounted }
{}

/// Each block that was opened has retired, or is open.
pub fn opened_are_accounted()
    ensures { OpenedAreAccounted }
{}

/// The end of each block that the inputs retire is told once, in order, and no other: with a buffer its id, its
/// cause, its place, whether the image is whole and how many packets were kept, a reason exactly where it isn't, and
/// as lost exactly the packet ids that have no kept packet.
pub fn notes_are_reasoned()
    ensures { NotesAreReasoned }
{}

/// The lines of notes of some inputs, as they were worked out by hand.
pub fn notes_are_worked()
    ensures { NotesAreWorked }
{}
