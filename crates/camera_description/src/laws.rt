//! Laws of the definitions. These functions do nothing: their contracts are the laws.

ghost use Rattle.camera_description.specs.Laws.{PiecesAreWhole};

/// Over a link that tells its receives the text of a description has as many bytes as were read.
pub fn pieces_are_whole()
    ensures { PiecesAreWhole }
{}
