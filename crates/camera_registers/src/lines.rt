//! The line of a register that was read.

ghost use Rattle.std.specs.Prelude.{◌≡◌, ◌+◌, ◌≤◌, ◌++◌, length};
ghost use Rattle.camera_registers.specs.Lines.{hex_of, register_line};

use arrayvec::ArrayVec;
use byteorder::{BigEndian, ByteOrder};

/// The bytes of a line, with its line feed.
const LINE_SIZE: usize = 37;

/// The eight hex digits of a number.
fn digits_of(number: u32) -> [u8; 8]
    ensures { result ≡ hex_of number }
{
    let mut bytes = [0; 4];
    BigEndian::write_u32(&mut bytes, number);
    let mut digits = [0; 8];
    let _ = hex::encode_to_slice(bytes.as_slice(), &mut digits);
    digits
}

/// Adds a text, for which there is room.
fn add(line: &mut ArrayVec<u8, LINE_SIZE>, text: &[u8])
    requires { length line.old.items + length text.now ≤ 37 }
    ensures { line.new.items ≡ line.old.items ++ text.now }
{
    let _ = line.try_extend_from_slice(text);
}

/// The line of a register and its value.
pub(crate) fn line_of(register: u32, value: u32) -> ArrayVec<u8, LINE_SIZE>
    ensures { result.items ≡ register_line register value }
{
    let mut line = ArrayVec::new();
    add(&mut line, b"register 0x");
    add(&mut line, &digits_of(register));
    add(&mut line, b" value=0x");
    add(&mut line, &digits_of(value));
    add(&mut line, b"\n");
    line
}
