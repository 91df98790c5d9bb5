//! One pixel, from the buffer into the piece.

ghost use Rattle.std.specs.Prelude.{◌≡◌, ◌≤◌, ◌<◌, ◌-◌, ◌+◌, ◌*◌, ◌^◌, ◌++◌, ◌∷◌, [], length, min};
ghost use Rattle.std.specs.Vec.{vec_len, vec_capacity};
ghost use Rattle.byteorder.specs.Endian.{big_bytes};
ghost use Rattle.frame_pictures.specs.Pictures.{byte_at, shared_value, running_value, text_at, pixel_text};
ghost use Rattle.frame_pictures.specs.declared.samples.Samples.TheVariants.{Grey16};
ghost use Rattle.picture_report.specs.Writing.{pixels_text};

use byteorder::{ByteOrder, LittleEndian};
use frame_pictures::{Samples, pixel_bits};

/// The byte at this position, and 0 behind the last one.
fn byte_at(row: &[u8], at: usize) -> u8
    ensures { result ≡ byte_at row.now at }
{
    if at < row.len() { row[at] } else { 0 }
}

/// The value of two bytes, the least significant first.
fn pair(first: u8, second: u8) -> u16
    ensures { result ≡ first + 256 * second }
{
    LittleEndian::read_u16(&[first, second])
}

/// The value of 10 bits that shares one of these bytes with another, from bit 0 or bit 4 of the first byte on.
fn ten_shared(first: u8, second: u8, bit: u32) -> u16
    ensures { result ≡ shared_value 2 first second bit }
{
    if bit == 0 {
        4 * u16::from(first) + u16::from(second % 4)
    } else {
        4 * u16::from(second) + u16::from(first / 16 % 4)
    }
}

/// The value of 12 bits that shares one of these bytes with another, from bit 0 or bit 4 of the first byte on.
fn twelve_shared(first: u8, second: u8, bit: u32) -> u16
    ensures { result ≡ shared_value 4 first second bit }
{
    if bit == 0 {
        16 * u16::from(first) + u16::from(second % 16)
    } else {
        16 * u16::from(second) + u16::from(first / 16 % 16)
    }
}

/// The value of 10 bits from this bit of the first byte on.
#[tactic(auto, using(crate::proofs::Values::running_ten))]
fn ten_running(first: u8, second: u8, bit: u32) -> u16
    requires { bit < 8 }
    ensures { result ≡ running_value 10 first second bit }
{
    (pair(first, second) >> bit) % 1024
}

/// The value of 12 bits from this bit of the first byte on.
#[tactic(auto, using(crate::proofs::Values::running_twelve))]
fn twelve_running(first: u8, second: u8, bit: u32) -> u16
    requires { bit < 8 }
    ensures { result ≡ running_value 12 first second bit }
{
    (pair(first, second) >> bit) % 4096
}

/// Adds a value, its most significant byte first.
fn add_value(value: u16, piece: &mut Vec<u8>)
    requires { vec_len piece.old + 2 ≤ vec_capacity piece.old }
    ensures text { piece.new.items ≡ piece.old.items ++ big_bytes 2 value }
    ensures len { vec_len piece.new ≡ vec_len piece.old + 2 }
    ensures capacity { vec_capacity piece.new ≡ vec_capacity piece.old }
{
    piece.push_reserved((value / 256) as u8);
    piece.push_reserved((value % 256) as u8);
}

/// Adds three bytes.
fn add_three(first: u8, second: u8, third: u8, piece: &mut Vec<u8>)
    requires { vec_len piece.old + 3 ≤ vec_capacity piece.old }
    ensures text { piece.new.items ≡ piece.old.items ++ first ∷ second ∷ third ∷ [] }
    ensures len { vec_len piece.new ≡ vec_len piece.old + 3 }
    ensures capacity { vec_capacity piece.new ≡ vec_capacity piece.old }
{
    piece.push_reserved(first);
    piece.push_reserved(second);
    piece.push_reserved(third);
}

/// Adds the pixel that begins with this bit of the byte at this position of its row.
fn add_at(samples: Samples, row: &[u8], at: usize, bit: u32, piece: &mut Vec<u8>)
    requires room { vec_len piece.old + 3 ≤ vec_capacity piece.old }
    requires near { at ≤ 2 ^ 38 }
    requires within { bit < 8 }
    ensures text { piece.new.items ≡ piece.old.items ++ text_at samples row.now at bit }
    ensures len { vec_len piece.new ≤ vec_len piece.old + 3 }
    ensures capacity { vec_capacity piece.new ≡ vec_capacity piece.old }
{
    let first = byte_at(row, at);
    let second = byte_at(row, at + 1);
    let third = byte_at(row, at + 2);
    match samples {
        Samples::Grey8 => piece.push_reserved(first),
        Samples::Grey16(greatest) => add_value(pair(first, second).min(greatest), piece),
        Samples::Rgb => add_three(first, second, third, piece),
        Samples::Bgr => add_three(third, second, first, piece),
        Samples::Rgba => add_three(first, second, third, piece),
        Samples::Bgra => add_three(third, second, first, piece),
        Samples::Yuyv => piece.push_reserved(first),
        Samples::Uyvy => piece.push_reserved(second),
        Samples::Packed10 => add_value(ten_shared(first, second, bit), piece),
        Samples::Packed12 => add_value(twelve_shared(first, second, bit), piece),
        Samples::Lsb10 => add_value(ten_running(first, second, bit), piece),
        Samples::Lsb12 => add_value(twelve_running(first, second, bit), piece),
    }
}

/// Adds pixel x of the row that begins with these bytes.
fn add_pixel(samples: Samples, row: &[u8], x: u32, piece: &mut Vec<u8>)
    requires { vec_len piece.old + 3 ≤ vec_capacity piece.old }
    ensures text { piece.new.items ≡ piece.old.items ++ pixel_text samples row.now x }
    ensures len { vec_len piece.new ≤ vec_len piece.old + 3 }
    ensures capacity { vec_capacity piece.new ≡ vec_capacity piece.old }
{
    let bits = u64::from(x) * u64::from(pixel_bits(samples));
    add_at(samples, row, (bits / 8) as usize, (bits % 8) as u32, piece);
}

/// Adds pixels of a row one by one, so many from this one on.
fn add_each(samples: Samples, row: &[u8], from: u32, count: u32, piece: &mut Vec<u8>)
    requires within { from + count ≤ 4294967295 }
    requires room { vec_len piece.old + 3 * count ≤ vec_capacity piece.old }
    ensures text { piece.new.items ≡ piece.old.items ++ pixels_text samples row.now from count }
    ensures capacity { vec_capacity piece.new ≡ vec_capacity piece.old }
{
    for k in 0..count {
        add_pixel(samples, row, from + k, piece);
    }
}

/// Adds pixels of two bytes each, straight from the row where all of them stand in it.
fn add_wide(greatest: u16, row: &[u8], from: u32, count: u32, piece: &mut Vec<u8>)
    requires within { from + count ≤ 4294967295 }
    requires room { vec_len piece.old + 3 * count ≤ vec_capacity piece.old }
    ensures text { piece.new.items ≡ piece.old.items ++ pixels_text (Grey16 greatest) row.now from count }
    ensures capacity { vec_capacity piece.new ≡ vec_capacity piece.old }
{
    if row.len() / 2 < (from + count) as usize {
        add_each(Samples::Grey16(greatest), row, from, count, piece);
        return;
    }
    for k in 0..count {
        let at = 2 * (from + k) as usize;
        let value = u16::from(row[at]) + 256 * u16::from(row[at + 1]);
        let cut = if value < greatest { value } else { greatest };
        add_value(cut, piece);
    }
}

/// Adds pixels of the row that begins with these bytes, so many from this one on.
pub(crate) fn add_pixels(samples: Samples, row: &[u8], from: u32, count: u32, piece: &mut Vec<u8>)
    requires within { from + count ≤ 4294967295 }
    requires room { vec_len piece.old + 3 * count ≤ vec_capacity piece.old }
    ensures text { piece.new.items ≡ piece.old.items ++ pixels_text samples row.now from count }
    ensures capacity { vec_capacity piece.new ≡ vec_capacity piece.old }
{
    match samples {
        Samples::Grey16(greatest) => add_wide(greatest, row, from, count, piece),
        _ => add_each(samples, row, from, count, piece),
    }
}
