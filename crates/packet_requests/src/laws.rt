//! Laws of the definitions. Each function only carries its statement.

ghost use Rattle.std.specs.Prelude.{ℕ, List};
ghost use Rattle.client_machine.specs.Events.{Event};
ghost use Rattle.packet_requests.specs.Laws.{NumbersHaveTheBit, RequestsAskTheSame, KeepsApart};

/// The number of a request is the receiver's with the bit set: 32,768 or more.
pub fn numbers_have_the_bit()
    ensures { NumbersHaveTheBit }
{}

/// A request is read as a command for the packets that the receiver asked for, and wants no acknowledge.
pub fn requests_ask_the_same()
    ensures { RequestsAskTheSame }
{}

/// What a client sends among its first 32,767 commands, heartbeats too, has no request's number.
pub fn early_commands_are_apart()
    ensures { (limit : ℕ) (e : Event) (es : List Event) → KeepsApart limit e es }
{}
