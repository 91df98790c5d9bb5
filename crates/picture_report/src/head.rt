//! The head of a picture.

ghost use Rattle.std.specs.Prelude.{◌≡◌, ◌≤◌, ◌++◌, ◌∷◌, [], OnOk};
ghost use Rattle.std.specs.Fmt.{decimal};
ghost use Rattle.std.specs.Vec.{vec_capacity};
ghost use Rattle.frame_pictures.specs.Pictures.{magic, greatest_in, flag_digit, missing_in, comment_text, head_text};

use frame_pictures::Samples;
use gev_types::{BlockAccount, ImageInfo, NoMemory, Record};
use itoa::Buffer;

/// The two letters that say whether the pixels are grey or of colour.
fn magic(samples: Samples) -> &'static [u8]
    ensures { result.now ≡ magic samples }
{
    match samples {
        Samples::Grey8 => b"P5",
        Samples::Grey16(_) => b"P5",
        Samples::Rgb => b"P6",
        Samples::Bgr => b"P6",
        Samples::Rgba => b"P6",
        Samples::Bgra => b"P6",
        Samples::Yuyv => b"P5",
        Samples::Uyvy => b"P5",
        Samples::Packed10 => b"P5",
        Samples::Packed12 => b"P5",
        Samples::Lsb10 => b"P5",
        Samples::Lsb12 => b"P5",
    }
}

/// The greatest value that a sample may have.
fn greatest_in(samples: Samples) -> u16
    ensures { result ≡ greatest_in samples }
{
    match samples {
        Samples::Grey8 => 255,
        Samples::Grey16(greatest) => greatest,
        Samples::Rgb => 255,
        Samples::Bgr => 255,
        Samples::Rgba => 255,
        Samples::Bgra => 255,
        Samples::Yuyv => 255,
        Samples::Uyvy => 255,
        Samples::Packed10 => 1023,
        Samples::Packed12 => 4095,
        Samples::Lsb10 => 1023,
        Samples::Lsb12 => 4095,
    }
}

/// Adds a number in decimal, and a byte behind it.
fn add_number(out: &mut Vec<u8>, number: u32, behind: u8) -> Result<(), NoMemory>
    ensures text { OnOk result (out.new.items ≡ out.old.items ++ (decimal number ++ behind ∷ [])) }
    ensures capacity { vec_capacity out.old ≤ vec_capacity out.new }
{
    let mut buffer = Buffer::new();
    out.extend_from_slice(buffer.format(number).as_bytes())?;
    out.push(behind)?;
    Ok(())
}

/// Adds a text, and a number in decimal behind it.
fn add_field(out: &mut Vec<u8>, name: &str, number: u64) -> Result<(), NoMemory>
    ensures text { OnOk result (out.new.items ≡ out.old.items ++ (name.now ++ decimal number)) }
    ensures capacity { vec_capacity out.old ≤ vec_capacity out.new }
{
    let mut buffer = Buffer::new();
    out.extend_from_slice(name.as_bytes())?;
    out.extend_from_slice(buffer.format(number).as_bytes())?;
    Ok(())
}

/// 1 for what holds, and 0 for what doesn't.
fn flag_digit(flag: bool) -> &'static [u8]
    ensures { result.now ≡ flag_digit flag }
{
    if flag { b"1" } else { b"0" }
}

/// How many packets are missing.
fn missing_in(account: Option<BlockAccount>) -> u32
    ensures { result ≡ missing_in account }
{
    match account {
        Some(account) => account.lost.ids,
        None => 0,
    }
}

/// Adds the comment with the record of a buffer and the time of its image.
fn add_comment(rec: Record, info: ImageInfo, out: &mut Vec<u8>) -> Result<(), NoMemory>
    ensures text { OnOk result (out.new.items ≡ out.old.items ++ comment_text rec info) }
    ensures capacity { vec_capacity out.old ≤ vec_capacity out.new }
{
    add_field(out, "# block=", rec.block)?;
    out.extend_from_slice(b" complete=")?;
    out.extend_from_slice(flag_digit(rec.complete))?;
    add_field(out, " filled=", u64::from(rec.filled))?;
    add_field(out, " missing=", u64::from(missing_in(rec.account)))?;
    add_field(out, " time=", info.timestamp)?;
    out.push(b'\n')?;
    Ok(())
}

/// Adds the head of the picture in a buffer with this record, and with this image.
pub(crate) fn add_head(
    samples: Samples,
    rec: Record,
    info: ImageInfo,
    out: &mut Vec<u8>,
) -> Result<(), NoMemory>
    ensures text { OnOk result (out.new.items ≡ out.old.items ++ head_text samples rec info) }
    ensures capacity { vec_capacity out.old ≤ vec_capacity out.new }
{
    out.extend_from_slice(magic(samples))?;
    out.push(b'\n')?;
    add_comment(rec, info, out)?;
    add_number(out, info.size_x, b' ')?;
    add_number(out, info.rows, b'\n')?;
    add_number(out, u32::from(greatest_in(samples)), b'\n')
}
