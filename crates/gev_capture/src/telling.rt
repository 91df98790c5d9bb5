//! What the bytes of a capture that are left begin with.

ghost use Rattle.std.specs.Prelude.{◌≡◌, ◌+◌, ◌≤◌, ◌==◌, List, length};
ghost use Rattle.gev_capture.specs.declared.form.SectionInterface.{SectionInterface as SectionInterfaceOf};
ghost use Rattle.gev_capture.specs.Numbers.{number};
ghost use Rattle.gev_capture.specs.Files.{classic_magic, byte_order, versioned, sized_section, told_section, section_type, begun_section, told_block, opens_as, fresh, told};
ghost use Rattle.gev_capture.specs.Steps.{format_of, told_by, HasParts, IsStep, HaveParts};

use crate::blocks::{sized_block, unless_whole};
use crate::classic::{classic_header, told_classic};
use crate::form::{Form, SectionInterface};
use crate::kind::CaptureKind;
use crate::numbers::{u16_in, u32_in};
use crate::order::Order;
use crate::step::{Change, Found, Step};

/// The type of a section header block of a pcapng file.
const SECTION_TYPE: u32 = 0x0A0D_0D0A;

/// The byte order and the parts of a second that the magic number of a pcap file tells.
fn classic_magic(magic: u32) -> Option<(Order, u64)>
    ensures { result ≡ classic_magic magic }
{
    match magic {
        0xA1B2_C3D4 => Some((Order::Big, 1_000_000)),
        0xD4C3_B2A1 => Some((Order::Little, 1_000_000)),
        0xA1B2_3C4D => Some((Order::Big, 1_000_000_000)),
        0x4D3C_B2A1 => Some((Order::Little, 1_000_000_000)),
        _ => None,
    }
}

/// The byte order that the magic number of a section tells.
fn byte_order(magic: u32) -> Option<Order>
    ensures { result ≡ byte_order magic }
{
    match magic {
        0x1A2B_3C4D => Some(Order::Big),
        0x4D3C_2B1A => Some(Order::Little),
        _ => None,
    }
}

/// A section's header that is there.
fn versioned(order: Order, total: u32, time: u128, bytes: &[u8]) -> Step
    requires some { 28 ≤ total }
    requires within { total ≤ length bytes.now }
    ensures told { (interfaces : List SectionInterfaceOf) → told_by interfaces bytes.now result ≡ versioned order total time bytes.now }
    ensures sound { (interfaces : List SectionInterfaceOf) → IsStep interfaces bytes.now result }
{
    if u16_in(order, bytes, 12) != 1 {
        return Step::Refused(CaptureKind::Version);
    }
    Step::Record(Found {
        size: total as usize,
        form: Form::Section { order, time },
        change: Change::Cleared,
        packet: None,
    })
}

/// A section's header, by its total length.
fn sized_section(order: Order, total: u32, time: u128, bytes: &[u8]) -> Step
    ensures told { (interfaces : List SectionInterfaceOf) → told_by interfaces bytes.now result ≡ sized_section order total time bytes.now }
    ensures sound { (interfaces : List SectionInterfaceOf) → IsStep interfaces bytes.now result }
{
    match unless_whole(order, 28, total, bytes) {
        Some(step) => step,
        None => versioned(order, total, time, bytes),
    }
}

/// A section's header of this byte order.
fn told_section(order: Option<Order>, time: u128, bytes: &[u8]) -> Step
    requires { 8 ≤ length bytes.now }
    ensures told { (interfaces : List SectionInterfaceOf) → told_by interfaces bytes.now result ≡ told_section order time bytes.now }
    ensures sound { (interfaces : List SectionInterfaceOf) → IsStep interfaces bytes.now result }
{
    match order {
        Some(order) => sized_section(order, u32_in(order, bytes, 4), time, bytes),
        None => Step::Refused(CaptureKind::Magic),
    }
}

/// A section's header, of which the type is there.
fn begun_section(time: u128, bytes: &[u8]) -> Step
    ensures told { (interfaces : List SectionInterfaceOf) → told_by interfaces bytes.now result ≡ begun_section time bytes.now }
    ensures sound { (interfaces : List SectionInterfaceOf) → IsStep interfaces bytes.now result }
{
    if bytes.len() < 12 {
        return Step::Wants(12);
    }
    told_section(byte_order(u32_in(Order::Big, bytes, 8)), time, bytes)
}

/// A block behind a section's header.
fn told_block(order: Order, interfaces: &[SectionInterface], time: u128, bytes: &[u8]) -> Step
    requires { HaveParts interfaces.now }
    ensures told { told_by interfaces.now bytes.now result ≡ told_block order interfaces.now time bytes.now }
    ensures sound { IsStep interfaces.now bytes.now result }
{
    if bytes.len() < 8 {
        return Step::Wants(8);
    }
    if u32_in(Order::Big, bytes, 0) == SECTION_TYPE {
        return begun_section(time, bytes);
    }
    sized_block(order, interfaces, time, u32_in(order, bytes, 4), bytes)
}

/// The first record, by the magic number of a pcap file if it has one.
fn opens_as(magic: Option<(Order, u64)>, bytes: &[u8]) -> Step
    requires parts { magic ≡ classic_magic (number Order.Big 0 4 bytes.now) }
    requires header { 4 ≤ length bytes.now }
    ensures told { (interfaces : List SectionInterfaceOf) → told_by interfaces bytes.now result ≡ opens_as magic bytes.now }
    ensures sound { (interfaces : List SectionInterfaceOf) → IsStep interfaces bytes.now result }
{
    match magic {
        Some((order, parts)) => classic_header(order, parts, bytes),
        None => {
            if u32_in(Order::Big, bytes, 0) != SECTION_TYPE {
                return Step::Refused(CaptureKind::Magic);
            }
            begun_section(0, bytes)
        }
    }
}

/// The first record of a capture.
fn told_first(bytes: &[u8]) -> Step
    ensures told { (interfaces : List SectionInterfaceOf) → told_by interfaces bytes.now result ≡ told fresh bytes.now }
    ensures sound { (interfaces : List SectionInterfaceOf) → IsStep interfaces bytes.now result }
{
    if bytes.len() < 4 {
        return Step::Wants(4);
    }
    opens_as(classic_magic(u32_in(Order::Big, bytes, 0)), bytes)
}

/// What the bytes that are left begin with, behind records that gave this form and these interfaces. The
/// bytes aren't held on to.
pub fn next_step(form: Form, interfaces: &[SectionInterface], bytes: &[u8]) -> Step
    requires form { HasParts form }
    requires interfaces { HaveParts interfaces.now }
    ensures told { told_by interfaces.now bytes.now result ≡ told (format_of form interfaces.now) bytes.now }
    ensures sound { IsStep interfaces.now bytes.now result }
{
    match form {
        Form::Fresh => told_first(bytes),
        Form::Classic { order, parts, link } => told_classic(order, parts, link, bytes),
        Form::Section { order, time } => told_block(order, interfaces, time, bytes),
    }
}
