//! Numbers at a place of a datagram, most significant byte first.

ghost use Rattle.std.specs.Prelude.{◌≡◌, ◌+◌, ◌≤◌, length};
ghost use Rattle.wire_fields.specs.Fields.{number_at};

use byteorder::{BigEndian, ByteOrder};

/// The two bytes from a place on, as a number.
#[tactic(auto, unfolding(crate::specs::Fields::number_at))]
pub fn u16_at(bytes: &[u8], place: usize) -> u16
    requires { place + 2 ≤ length bytes.now }
    ensures { result ≡ number_at place 2 bytes.now }
{
    BigEndian::read_u16(&bytes[place..])
}

/// The four bytes from a place on, as a number.
#[tactic(auto, unfolding(crate::specs::Fields::number_at))]
pub fn u32_at(bytes: &[u8], place: usize) -> u32
    requires { place + 4 ≤ length bytes.now }
    ensures { result ≡ number_at place 4 bytes.now }
{
    BigEndian::read_u32(&bytes[place..])
}

/// The eight bytes from a place on, as a number.
#[tactic(auto, unfolding(crate::specs::Fields::number_at))]
pub fn u64_at(bytes: &[u8], place: usize) -> u64
    requires { place + 8 ≤ length bytes.now }
    ensures { result ≡ number_at place 8 bytes.now }
{
    BigEndian::read_u64(&bytes[place..])
}
