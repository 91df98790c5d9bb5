ghost use Rattle.std.specs.Prelude.{◌≡◌};
ghost use Rattle.frame_pictures.specs.Formats.{has_ten_bits, has_twelve_bits, greatest_of, is_ten_packed, is_twelve_packed, is_ten_p, is_twelve_p, packed_of, channels_of, samples_of, pixel_bits, fills_bytes};

use crate::samples::Samples;

/// Whether it's grey of 10 bits, or the pattern of a Bayer filter with as many.
fn has_ten_bits(pixel: u32) -> bool
    ensures { result ≡ has_ten_bits pixel }
{
    pixel == 0x0110_0003 || (0x0110_000c <= pixel && pixel <= 0x0110_000f)
}

/// Whether it's grey of 12 bits, or the pattern of a Bayer filter with as many.
fn has_twelve_bits(pixel: u32) -> bool
    ensures { result ≡ has_twelve_bits pixel }
{
    pixel == 0x0110_0005 || (0x0110_0010 <= pixel && pixel <= 0x0110_0013)
}

/// The greatest value of a pixel of 16 bits.
fn greatest_of(pixel: u32) -> u16
    ensures { result ≡ greatest_of pixel }
{
    if has_ten_bits(pixel) {
        1023
    } else if has_twelve_bits(pixel) {
        4095
    } else if pixel == 0x0110_0025 {
        16_383
    } else {
        65_535
    }
}

/// Whether it's Mono10Packed, or the pattern of a Bayer filter that is packed so.
fn is_ten_packed(pixel: u32) -> bool
    ensures { result ≡ is_ten_packed pixel }
{
    pixel == 0x010c_0004 || (0x010c_0026 <= pixel && pixel <= 0x010c_0029)
}

/// Whether it's Mono12Packed, or the pattern of a Bayer filter that is packed so.
fn is_twelve_packed(pixel: u32) -> bool
    ensures { result ≡ is_twelve_packed pixel }
{
    pixel == 0x010c_0006 || (0x010c_002a <= pixel && pixel <= 0x010c_002d)
}

/// Whether it's Mono10p, or the pattern of a Bayer filter that is packed so.
fn is_ten_p(pixel: u32) -> bool
    ensures { result ≡ is_ten_p pixel }
{
    pixel == 0x010a_0046
        || pixel == 0x010a_0052
        || pixel == 0x010a_0054
        || pixel == 0x010a_0056
        || pixel == 0x010a_0058
}

/// Whether it's Mono12p, or the pattern of a Bayer filter that is packed so.
fn is_twelve_p(pixel: u32) -> bool
    ensures { result ≡ is_twelve_p pixel }
{
    pixel == 0x010c_0047
        || pixel == 0x010c_0053
        || pixel == 0x010c_0055
        || pixel == 0x010c_0057
        || pixel == 0x010c_0059
}

/// How values that are no whole bytes lie in a buffer.
fn packed_of(pixel: u32) -> Option<Samples>
    ensures { result ≡ packed_of pixel }
{
    if is_ten_packed(pixel) {
        Some(Samples::Packed10)
    } else if is_twelve_packed(pixel) {
        Some(Samples::Packed12)
    } else if is_ten_p(pixel) {
        Some(Samples::Lsb10)
    } else if is_twelve_p(pixel) {
        Some(Samples::Lsb12)
    } else {
        None
    }
}

/// How pixels of more than one channel lie in a buffer.
fn channels_of(pixel: u32) -> Option<Samples>
    ensures { result ≡ channels_of pixel }
{
    if pixel == 0x0218_0014 {
        Some(Samples::Rgb)
    } else if pixel == 0x0218_0015 {
        Some(Samples::Bgr)
    } else if pixel == 0x0220_0016 {
        Some(Samples::Rgba)
    } else if pixel == 0x0220_0017 {
        Some(Samples::Bgra)
    } else if pixel == 0x0210_0032 || pixel == 0x0210_003b {
        Some(Samples::Yuyv)
    } else if pixel == 0x0210_001f {
        Some(Samples::Uyvy)
    } else {
        None
    }
}

/// How the pixels of the format with this code lie in a buffer; None of a format that isn't drawn (Pixel Format
/// Naming Convention).
pub fn samples_of(pixel: u32) -> Option<Samples>
    ensures { result ≡ samples_of pixel }
{
    if pixel / 65_536 == 0x0108 {
        Some(Samples::Grey8)
    } else if pixel / 65_536 == 0x0110 {
        Some(Samples::Grey16(greatest_of(pixel)))
    } else if pixel / 16_777_216 == 2 {
        channels_of(pixel)
    } else {
        packed_of(pixel)
    }
}

/// How many bits a pixel takes in its row.
pub fn pixel_bits(samples: Samples) -> u8
    ensures { result ≡ pixel_bits samples }
{
    match samples {
        Samples::Grey8 => 8,
        Samples::Grey16(_) => 16,
        Samples::Rgb => 24,
        Samples::Bgr => 24,
        Samples::Rgba => 32,
        Samples::Bgra => 32,
        Samples::Yuyv => 16,
        Samples::Uyvy => 16,
        Samples::Packed10 => 12,
        Samples::Packed12 => 12,
        Samples::Lsb10 => 10,
        Samples::Lsb12 => 12,
    }
}

/// Whether a row of so many pixels fills whole bytes.
pub fn fills_bytes(samples: Samples, width: u32) -> bool
    ensures { result ≡ fills_bytes samples width }
{
    u64::from(width) * u64::from(pixel_bits(samples)) % 8 == 0
}
