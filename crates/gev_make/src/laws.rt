//! Laws of the script that is made. Each function only carries its statement.

ghost use Rattle.gev_make.specs.Laws.{MadeLinesAreRead};

/// Each line that is made is one of a script, and is read again as it was meant.
pub fn made_lines_are_read()
    ensures { MadeLinesAreRead }
{}
