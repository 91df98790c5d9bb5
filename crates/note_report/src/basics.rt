//! Simple parts of a line.

ghost use Rattle.std.specs.Prelude.{◌≡◌, ◌++◌, OnOk};
ghost use Rattle.std.specs.List.{flat_map};
ghost use Rattle.hex.specs.Hex.{encode_lower};
ghost use Rattle.note_report.specs.Pieces.{basic_text};

use crate::piece::Basic;
use gev_types::NoMemory;
use itoa::Buffer;

/// Adds these parts, one after the other.
pub(crate) fn add_basics(out: &mut Vec<u8>, basics: &[Basic<'_>]) -> Result<(), NoMemory>
    ensures { OnOk result (out.new.items ≡ out.old.items ++ flat_map basic_text basics.now) }
{
    for basic in basics {
        add_basic(out, basic)?;
    }
    Ok(())
}

/// Adds a part.
fn add_basic(out: &mut Vec<u8>, basic: &Basic<'_>) -> Result<(), NoMemory>
    ensures { OnOk result (out.new.items ≡ out.old.items ++ basic_text basic.now) }
{
    let mut buffer = Buffer::new();
    match basic {
        Basic::Text(text) => out.extend_from_slice(text)?,
        Basic::Number(number) => out.extend_from_slice(buffer.format(*number).as_bytes())?,
        Basic::Hex(bytes) => add_hex(out, bytes)?,
    }
    Ok(())
}

/// Adds two hex digits for each byte.
fn add_hex(out: &mut Vec<u8>, bytes: &[u8]) -> Result<(), NoMemory>
    ensures { OnOk result (out.new.items ≡ out.old.items ++ encode_lower bytes.now) }
{
    let start = out.len();
    // No memory holds a text whose length is beyond a usize.
    out.resize(start.saturating_add(2 * bytes.len()), 0)?;
    let _ = hex::encode_to_slice(bytes, &mut out[start..]);
    Ok(())
}
