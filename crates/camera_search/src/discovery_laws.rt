//! Laws of the definitions. These functions do nothing: their contracts are the laws.

ghost use Rattle.camera_search.specs.DiscoveryLaws.{RegistersAreTold};

/// What is read of a camera's answer to DISCOVERY are its bootstrap registers.
pub fn the_registers_are_told()
    ensures { RegistersAreTold }
{}
