//! Laws over the definitions of the messages. These functions do nothing: their contracts are the
//! laws.

ghost use Rattle.std.specs.Prelude.{ℕ, List};
ghost use Rattle.gvcp_wire.specs.declared.message.CommandHead.{CommandHead};
ghost use Rattle.gvcp_wire.specs.Messages.{PlainCommand, PlainAck};
ghost use Rattle.gvcp_wire.specs.Laws.{CodesAreStandard, ReadsCommand, IsOneCommand, IsWrittenCommand, ReadsAck, IsOneAck, IsWrittenAck};

/// The constants of `codes` are the numbers of the standard.
pub fn codes_are_the_standards()
    ensures { CodesAreStandard }
{}

/// What the reading of a command computes is what the wire relation and the refusals say.
pub fn command_reading_is_the_relation()
    ensures { (bytes : List ℕ) → ReadsCommand bytes }
{}

/// Bytes are exactly one command, or are refused for exactly one reason, and never both.
pub fn bytes_are_one_command_or_refused()
    ensures { (bytes : List ℕ) → IsOneCommand bytes }
{}

/// The plain spelling of a command that can be written is read as that command, and each command
/// that is read can be written.
pub fn written_command_is_read()
    ensures { (head : CommandHead) (command : PlainCommand) → IsWrittenCommand head command }
{}

/// What the reading of an acknowledge computes is what the wire relation and the refusals say.
pub fn ack_reading_is_the_relation()
    ensures { (bytes : List ℕ) → ReadsAck bytes }
{}

/// Bytes are exactly one acknowledge, or are refused for exactly one reason, and never both.
pub fn bytes_are_one_ack_or_refused()
    ensures { (bytes : List ℕ) → IsOneAck bytes }
{}

/// The plain spelling of an acknowledge is read as that acknowledge.
pub fn written_ack_is_read()
    ensures { (ack : PlainAck) → IsWrittenAck ack }
{}
