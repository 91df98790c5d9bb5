//! Laws over the definitions of the control client. These functions do nothing: their contracts are
//! the laws.

ghost use Rattle.std.specs.Prelude.{ℕ, List};
ghost use Rattle.client_machine.specs.Machine.{Client};
ghost use Rattle.client_machine.specs.Events.{Event};
ghost use Rattle.gev_types.specs.declared.peer.Peer.{Peer};
ghost use Rattle.client_machine.specs.Laws.{NumbersAreDefined, IsNewUntilSubmitted, KeepsLimit, NoAnswerComesLast, EndsAreExact};
ghost use Rattle.client_machine.specs.Setup.{SetupIsSubmitted};
ghost use Rattle.client_machine.specs.WorkedTimes.{ClientIsWorked};

/// The constants of `numbers` are the defined numbers.
pub fn numbers_are_the_defined_ones()
    ensures { NumbersAreDefined }
{}

/// Each command of the setup may be submitted.
pub fn the_setup_may_be_submitted()
    ensures { (peer : Peer) → SetupIsSubmitted peer }
{}

/// A client is as new exactly as long as nothing was submitted to it.
pub fn a_client_is_new_until_a_submission()
    ensures { (limit : ℕ) (es : List Event) → IsNewUntilSubmitted limit es }
{}

/// A client keeps the limit of a send with which it was made: no event changes it.
pub fn a_client_keeps_its_limit()
    ensures { (s : Client) (e : Event) → KeepsLimit s e }
{}

/// That a command had no answer is told only after three events made its bytes wait, and after no
/// matching acknowledge since the first of them.
pub fn no_answer_comes_after_three_sends()
    ensures { (limit : ℕ) (es : List Event) (moment req : ℕ) → NoAnswerComesLast limit es moment req }
{}

/// Acked and Refused come exactly at a matching acknowledge, Refused with its status, and NoAnswer at
/// ticks alone.
pub fn outcomes_that_end_a_command_are_exact()
    ensures { (s : Client) → EndsAreExact s }
{}

/// A command that nobody answers and one that is answered, byte by byte, with the moments of their sends.
pub fn a_client_is_worked()
    ensures { ClientIsWorked }
{}
