//! Laws of the definitions. These functions do nothing: their contracts are the laws.

ghost use Rattle.camera_control.specs.Laws.{StepsInOrder, FrontInOrder};
ghost use Rattle.camera_control.specs.WorkedCommands.{CommandsAreWorked, AnswersAreWorked};

/// What is submitted while steps are made are their commands, in order, each once, and nothing else.
pub fn steps_are_in_order()
    ensures { StepsInOrder }
{}

/// Where a step ends all, what was submitted are the commands of the steps up to this one, in order, each once, and
/// nothing else.
pub fn a_front_is_in_order()
    ensures { FrontInOrder }
{}

/// The commands by which some cameras are taken and let go, byte by byte.
pub fn commands_are_worked()
    ensures { CommandsAreWorked }
{}

/// What some answers of a camera come to.
pub fn answers_are_worked()
    ensures { AnswersAreWorked }
{}
