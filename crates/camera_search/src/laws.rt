//! Laws of the definitions. These functions do nothing: their contracts are the laws.

ghost use Rattle.camera_search.specs.Laws.{CamerasAreToldOnce};

/// Of the cameras that answered each MAC address is told once.
pub fn cameras_are_told_once()
    ensures { CamerasAreToldOnce }
{}
