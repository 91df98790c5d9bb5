ghost use Rattle.std.specs.Prelude.{◌≡◌, ◌≤◌, ◌++◌, [], ◌∷◌, length, OnOk};
ghost use Rattle.hex.specs.Hex.{encode_lower};
ghost use Rattle.gev_script.specs.Lines.{datagram};
ghost use Rattle.gev_record.specs.Writing.{text_of};

use crate::kept::ROOM;
use gev_script::Line;
use gev_types::NoMemory;
use std::alloc::Global;
use take_lines::add_line;

/// Adds the line of a datagram.
pub(crate) fn add_datagram(alloc: Global, bytes: &[u8], text: &mut Vec<u8>) -> Result<(), NoMemory>
    requires some { 1 ≤ length bytes.now }
    requires short { length bytes.now ≤ 1600 }
    ensures { OnOk result (text.new.items ≡ text.old.items ++ text_of (datagram (encode_lower bytes.now) ∷ [])) }
{
    let mut digits = [0; 2 * ROOM];
    let hex = &mut digits[..2 * bytes.len()];
    hex::encode_to_slice(bytes, hex).unwrap();
    add_line(alloc, &Line::Datagram { hex }, text)
}
