//! The records of a pcap file.

ghost use Rattle.std.specs.Prelude.{◌≡◌, ℕ, ◌+◌, ◌*◌, ◌/◌, ◌%◌, ◌^◌, ◌≤◌, ◌<◌, List, length};
ghost use Rattle.gev_capture.specs.declared.form.SectionInterface.{SectionInterface};
ghost use Rattle.gev_capture.specs.Numbers.{number};
ghost use Rattle.gev_capture.specs.Files.{classic_header, classic_time, classic_record, told_classic};
ghost use Rattle.gev_capture.specs.Steps.{told_by, IsStep};

use crate::form::Form;
use crate::kind::CaptureKind;
use crate::numbers::{u16_in, u32_in};
use crate::order::Order;
use crate::step::{Change, Entry, Found, Slot, Step};

/// The most bytes of a packet that were captured.
pub(crate) const MOST_CAPTURED: u32 = 262_144;

/// The bytes of the file's header.
const HEADER_SIZE: usize = 24;

/// The bytes of a record's header.
const RECORD_HEADER_SIZE: usize = 16;

/// What the header of the file tells.
pub(crate) fn classic_header(order: Order, parts: u64, bytes: &[u8]) -> Step
    requires { 1 ≤ parts }
    ensures told { (interfaces : List SectionInterface) → told_by interfaces bytes.now result ≡ classic_header order parts bytes.now }
    ensures sound { (interfaces : List SectionInterface) → IsStep interfaces bytes.now result }
{
    if bytes.len() < HEADER_SIZE {
        return Step::Wants(HEADER_SIZE);
    }
    if u16_in(order, bytes, 4) != 2 {
        return Step::Refused(CaptureKind::Version);
    }
    let link = (u32_in(order, bytes, 20) % 65_536) as u16;
    Step::Record(Found {
        size: HEADER_SIZE,
        form: Form::Classic { order, parts, link },
        change: Change::Same,
        packet: None,
    })
}

/// The time of a record in nanoseconds.
fn classic_time(order: Order, parts: u64, bytes: &[u8]) -> u128
    requires parts { 1 ≤ parts }
    requires header { 16 ≤ length bytes.now }
    ensures { result ≡ classic_time order parts bytes.now }
{
    let seconds = u128::from(u32_in(order, bytes, 0));
    let rest = u128::from(u32_in(order, bytes, 4));
    seconds * 1_000_000_000 + rest * 1_000_000_000 / u128::from(parts)
}

/// A record with so many captured bytes behind its header.
fn classic_record(order: Order, parts: u64, link: u16, count: u32, bytes: &[u8]) -> Step
    requires parts { 1 ≤ parts }
    requires header { 16 ≤ length bytes.now }
    ensures told { (interfaces : List SectionInterface) → told_by interfaces bytes.now result ≡ classic_record order parts link count bytes.now }
    ensures sound { (interfaces : List SectionInterface) → IsStep interfaces bytes.now result }
{
    if count > MOST_CAPTURED {
        return Step::Refused(CaptureKind::Length);
    }
    let size = RECORD_HEADER_SIZE + count as usize;
    if bytes.len() < size {
        return Step::Wants(size);
    }
    let slot = Slot {
        time: classic_time(order, parts, bytes),
        link,
        at: RECORD_HEADER_SIZE,
        count: count as usize,
    };
    Step::Record(Found {
        size,
        form: Form::Classic { order, parts, link },
        change: Change::Same,
        packet: Some(Entry::Packet(slot)),
    })
}

/// What the bytes that are left of a pcap file begin with.
pub(crate) fn told_classic(order: Order, parts: u64, link: u16, bytes: &[u8]) -> Step
    requires { 1 ≤ parts }
    ensures told { (interfaces : List SectionInterface) → told_by interfaces bytes.now result ≡ told_classic order parts link bytes.now }
    ensures sound { (interfaces : List SectionInterface) → IsStep interfaces bytes.now result }
{
    if bytes.len() < RECORD_HEADER_SIZE {
        return Step::Wants(RECORD_HEADER_SIZE);
    }
    let count = u32_in(order, bytes, 8);
    classic_record(order, parts, link, count, bytes)
}
