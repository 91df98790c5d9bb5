//! Laws over the definitions, each the contract of a function with nothing to do.

ghost use Rattle.gev_capture.specs.Laws.{PiecesTell, CapturesAreOne, PacketsHaveBytes};

/// What the bytes of a capture so far tell is what all its bytes tell.
pub fn pieces_tell()
    ensures { PiecesTell }
{}

/// Any bytes are a capture in exactly one way: its packets, and how it ends.
pub fn captures_are_one()
    ensures { CapturesAreOne }
{}

/// The packets of a capture whose bytes are below 256 have such bytes.
pub fn packets_have_bytes()
    ensures { PacketsHaveBytes }
{}
