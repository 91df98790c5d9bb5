//! Laws of the definitions. These functions do nothing: their contracts are the laws.

ghost use Rattle.camera_registers.specs.Laws.{AccessesInOrder, ReadsAreTold};

/// What is submitted while accesses are made are their commands, in order, each once, and nothing else.
pub fn accesses_are_in_order()
    ensures { AccessesInOrder }
{}

/// Over a link that tells its receives each read that was made has its line.
pub fn reads_are_told()
    ensures { ReadsAreTold }
{}
