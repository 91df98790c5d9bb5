//! Numbers at a place of a record, in the file's byte order.

ghost use Rattle.std.specs.Prelude.{◌≡◌, ◌+◌, ◌≤◌, length};
ghost use Rattle.gev_capture.specs.Numbers.{number};

use crate::order::Order;
use byteorder::{BigEndian, ByteOrder, LittleEndian};

/// The two bytes from a place on, as a number.
#[tactic(auto, unfolding(crate::specs::Numbers::number))]
pub(crate) fn u16_in(order: Order, bytes: &[u8], place: usize) -> u16
    requires { place + 2 ≤ length bytes.now }
    ensures { result ≡ number order place 2 bytes.now }
{
    let field = &bytes[place..];
    match order {
        Order::Big => BigEndian::read_u16(field),
        Order::Little => LittleEndian::read_u16(field),
    }
}

/// The four bytes from a place on, as a number.
#[tactic(auto, unfolding(crate::specs::Numbers::number))]
pub(crate) fn u32_in(order: Order, bytes: &[u8], place: usize) -> u32
    requires { place + 4 ≤ length bytes.now }
    ensures { result ≡ number order place 4 bytes.now }
{
    let field = &bytes[place..];
    match order {
        Order::Big => BigEndian::read_u32(field),
        Order::Little => LittleEndian::read_u32(field),
    }
}

/// The eight bytes from a place on, as a number.
#[tactic(auto, unfolding(crate::specs::Numbers::number))]
pub(crate) fn u64_in(order: Order, bytes: &[u8], place: usize) -> u64
    requires { place + 8 ≤ length bytes.now }
    ensures { result ≡ number order place 8 bytes.now }
{
    let field = &bytes[place..];
    match order {
        Order::Big => BigEndian::read_u64(field),
        Order::Little => LittleEndian::read_u64(field),
    }
}
