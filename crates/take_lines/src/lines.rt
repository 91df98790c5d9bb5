//! Lines of a script that is written, each added with its line feed.

ghost use Rattle.std.specs.Prelude.{◌≡◌, ◌++◌, ◌∷◌, [], OnOk};
ghost use Rattle.gev_script.specs.Lines.{view};
ghost use Rattle.gev_script.specs.Spelling.{IsScriptLine};
ghost use Rattle.take_lines.specs.Texts.{text_of, take_lines};

use gev_script::{Line, write_line};
use gev_types::NoMemory;
use std::alloc::Global;

/// Adds a line.
pub fn add_line(alloc: Global, line: &Line<'_>, out: &mut Vec<u8>) -> Result<(), NoMemory>
    requires { IsScriptLine (view line.now) }
    ensures { OnOk result (out.new.items ≡ out.old.items ++ text_of (view line.now ∷ [])) }
{
    write_line(alloc, line, out)?;
    out.push(b'\n')?;
    Ok(())
}

/// Adds a `take` line for each of so many buffers that came back.
pub fn add_takes(alloc: Global, count: usize, out: &mut Vec<u8>) -> Result<(), NoMemory>
    ensures { OnOk result (out.new.items ≡ out.old.items ++ text_of (take_lines count)) }
{
    for _ in 0..count {
        add_line(alloc, &Line::Take, out)?;
    }
    Ok(())
}
