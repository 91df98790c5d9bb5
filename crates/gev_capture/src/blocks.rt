//! The blocks of a pcapng file.

ghost use Rattle.std.specs.Prelude.{◌≡◌, ℕ, ◌+◌, ◌-◌, ◌*◌, ◌/◌, ◌%◌, ◌^◌, ◌≤◌, ◌<◌, ◌==◌, ◌&&◌, nat_le, min, List, length, slice_get, slice_set, Some, None, IfNone, option_map};
ghost use Rattle.gev_capture.specs.declared.form.SectionInterface.{SectionInterface as SectionInterfaceOf};
ghost use Rattle.gev_capture.specs.Numbers.{number};
ghost use Rattle.gev_capture.specs.Files.{Told, is_total, whole, interface_in, interface_block, block_time, on_interface, counted_packet, packet_block, simple_count, simple_sized, simple_on, simple_block, told_dropped, statistics_in, statistics_on, statistics_block, body_told, sized_block};
ghost use Rattle.gev_capture.specs.Steps.{told_by, or_next, IsStep, HaveParts};

use crate::classic::MOST_CAPTURED;
use crate::form::{Form, SectionInterface};
use crate::kind::CaptureKind;
use crate::numbers::{u16_in, u32_in};
use crate::options::{dropped, parts_of, resolution};
use crate::order::Order;
use crate::step::{Change, Entry, Found, Slot, Step};

/// The most bytes of a block.
const MOST_OF_BLOCK: u32 = 1_048_576;

/// The most interfaces of a section.
const MOST_FACES: usize = 256;

/// Whether a block may have this total length.
fn is_total(least: u32, total: u32) -> bool
    ensures { result ≡ is_total least total }
{
    total % 4 == 0 && least <= total && total <= MOST_OF_BLOCK
}

/// None where the block is there and its two total lengths are one; else what is told of it.
pub(crate) fn unless_whole(order: Order, least: u32, total: u32, bytes: &[u8]) -> Option<Step>
    requires { 12 ≤ least }
    ensures told { (interfaces : List SectionInterfaceOf) (next : Told) → whole order least total bytes.now next ≡ or_next (option_map (told_by interfaces bytes.now) result) next }
    ensures sound { (interfaces : List SectionInterfaceOf) (step : Step) → result ≡ Some step → IsStep interfaces bytes.now step }
    ensures least { result ≡ None → least ≤ total }
    ensures within { result ≡ None → total ≤ length bytes.now }
{
    if !is_total(least, total) {
        return Some(Step::Refused(CaptureKind::Length));
    }
    let size = total as usize;
    if bytes.len() < size {
        return Some(Step::Wants(size));
    }
    if u32_in(order, bytes, size - 4) != total {
        return Some(Step::Refused(CaptureKind::Length));
    }
    None
}

/// The interface that a block of so many bytes tells of.
fn interface_in(order: Order, total: u32, bytes: &[u8]) -> SectionInterface
    requires least { 20 ≤ total }
    requires within { total ≤ length bytes.now }
    ensures value { result ≡ interface_in order total bytes.now }
    ensures parts { 1 ≤ result.parts }
{
    let options = &bytes[16..total as usize - 4];
    SectionInterface {
        link: u16_in(order, bytes, 8),
        most: u32_in(order, bytes, 12),
        parts: parts_of(resolution(order, options)),
        dropped: 0,
    }
}

/// A block without a packet.
fn without_packet(order: Order, time: u128, total: u32, change: Change) -> Step
    ensures { result ≡ Step.Record (record { size = total; form = Form.Section order time; change = change; packet = None }) }
{
    Step::Record(Found {
        size: total as usize,
        form: Form::Section { order, time },
        change,
        packet: None,
    })
}

/// A block that tells of an interface.
fn interface_block(
    order: Order,
    interfaces: &[SectionInterface],
    time: u128,
    total: u32,
    bytes: &[u8],
) -> Step
    requires some { 12 ≤ total }
    requires within { total ≤ length bytes.now }
    ensures told { told_by interfaces.now bytes.now result ≡ interface_block order interfaces.now time total bytes.now }
    ensures sound { IsStep interfaces.now bytes.now result }
{
    if total < 20 {
        return Step::Refused(CaptureKind::Length);
    }
    if interfaces.len() >= MOST_FACES {
        return Step::Refused(CaptureKind::Interface);
    }
    without_packet(
        order,
        time,
        total,
        Change::More(interface_in(order, total, bytes)),
    )
}

/// The time of an enhanced packet in nanoseconds.
fn block_time(order: Order, parts: u64, bytes: &[u8]) -> u128
    requires parts { 1 ≤ parts }
    requires header { 20 ≤ length bytes.now }
    ensures { result ≡ block_time order parts bytes.now }
{
    let high = u128::from(u32_in(order, bytes, 12));
    let low = u128::from(u32_in(order, bytes, 16));
    (high * 4_294_967_296 + low) * 1_000_000_000 / u128::from(parts)
}

/// A packet of this interface.
fn interface_packet(
    order: Order,
    interface: SectionInterface,
    total: u32,
    count: u32,
    bytes: &[u8],
) -> Found
    requires parts { 1 ≤ interface.parts }
    requires header { 32 ≤ total }
    requires within { total ≤ length bytes.now }
    ensures { let time = block_time order interface.parts bytes.now in
        result ≡ record { size = total; form = Form.Section order time; change = Change.Same; packet = Some (Entry.Packet (record { time = time; link = interface.link; at = 28; count = count })) } }
{
    let time = block_time(order, interface.parts, bytes);
    Found {
        size: total as usize,
        form: Form::Section { order, time },
        change: Change::Same,
        packet: Some(Entry::Packet(Slot {
            time,
            link: interface.link,
            at: 28,
            count: count as usize,
        })),
    }
}

/// A packet of the interface with this number.
fn on_interface(
    order: Order,
    interfaces: &[SectionInterface],
    total: u32,
    i: usize,
    count: u32,
    bytes: &[u8],
) -> Step
    requires parts { HaveParts interfaces.now }
    requires fits { 32 + count ≤ total }
    requires within { total ≤ length bytes.now }
    ensures told { told_by interfaces.now bytes.now result ≡ on_interface order interfaces.now total count (slice_get interfaces.now i) bytes.now }
    ensures sound { IsStep interfaces.now bytes.now result }
{
    match interfaces.get(i) {
        Some(interface) => Step::Record(interface_packet(order, *interface, total, count, bytes)),
        None => Step::Refused(CaptureKind::Interface),
    }
}

/// A packet of so many captured bytes, of the interface with this number.
fn counted_packet(
    order: Order,
    interfaces: &[SectionInterface],
    total: u32,
    i: usize,
    count: u32,
    bytes: &[u8],
) -> Step
    requires parts { HaveParts interfaces.now }
    requires within { total ≤ length bytes.now }
    ensures told { told_by interfaces.now bytes.now result ≡ counted_packet order interfaces.now total i count bytes.now }
    ensures sound { IsStep interfaces.now bytes.now result }
{
    if count > MOST_CAPTURED {
        return Step::Refused(CaptureKind::Length);
    }
    if 32 + count > total {
        return Step::Refused(CaptureKind::Length);
    }
    on_interface(order, interfaces, total, i, count, bytes)
}

/// A block with a packet of the interface with this number.
fn packet_block(
    order: Order,
    interfaces: &[SectionInterface],
    total: u32,
    i: usize,
    bytes: &[u8],
) -> Step
    requires parts { HaveParts interfaces.now }
    requires within { total ≤ length bytes.now }
    ensures told { told_by interfaces.now bytes.now result ≡ packet_block order interfaces.now total i bytes.now }
    ensures sound { IsStep interfaces.now bytes.now result }
{
    if total < 32 {
        return Step::Refused(CaptureKind::Length);
    }
    counted_packet(order, interfaces, total, i, u32_in(order, bytes, 20), bytes)
}

/// How many bytes of a simple packet were captured.
fn simple_count(most: u32, original: u32, room: u32) -> u32
    ensures value { result ≡ simple_count most original room }
    ensures fits { result ≤ room }
{
    let count = original.min(room);
    if most == 0 { count } else { most.min(count) }
}

/// A simple packet of so many captured bytes.
fn simple_sized(order: Order, time: u128, total: u32, link: u16, count: u32, bytes: &[u8]) -> Step
    requires fits { 16 + count ≤ total }
    requires within { total ≤ length bytes.now }
    ensures told { (interfaces : List SectionInterfaceOf) → told_by interfaces bytes.now result ≡ simple_sized order interfaces time total link count bytes.now }
    ensures sound { (interfaces : List SectionInterfaceOf) → IsStep interfaces bytes.now result }
{
    if count > MOST_CAPTURED {
        return Step::Refused(CaptureKind::Length);
    }
    Step::Record(Found {
        size: total as usize,
        form: Form::Section { order, time },
        change: Change::Same,
        packet: Some(Entry::Packet(Slot {
            time,
            link,
            at: 12,
            count: count as usize,
        })),
    })
}

/// A block with a simple packet, which is of the first interface and has the time of the packet before it.
fn simple_block(
    order: Order,
    interfaces: &[SectionInterface],
    time: u128,
    total: u32,
    bytes: &[u8],
) -> Step
    requires some { 12 ≤ total }
    requires within { total ≤ length bytes.now }
    ensures told { told_by interfaces.now bytes.now result ≡ simple_block order interfaces.now time total bytes.now }
    ensures sound { IsStep interfaces.now bytes.now result }
{
    if total < 16 {
        return Step::Refused(CaptureKind::Length);
    }
    match interfaces.get(0) {
        Some(interface) => {
            let count = simple_count(interface.most, u32_in(order, bytes, 8), total - 16);
            simple_sized(order, time, total, interface.link, count, bytes)
        }
        None => Step::Refused(CaptureKind::Interface),
    }
}

/// The interface with this number has dropped so many packets, if that is told.
fn statistics_on(
    order: Order,
    interfaces: &[SectionInterface],
    time: u128,
    total: u32,
    i: usize,
    found: Option<u64>,
) -> Step
    requires parts { HaveParts interfaces.now }
    requires some { 12 ≤ total }
    ensures told { (bytes : List ℕ) → told_by interfaces.now bytes result ≡ statistics_on order interfaces.now time total i (slice_get interfaces.now i) found }
    ensures sound { (bytes : List ℕ) → total ≤ length bytes → IsStep interfaces.now bytes result }
{
    let Some(interface) = interfaces.get(i) else {
        return without_packet(order, time, total, Change::Same);
    };
    let Some(now) = found else {
        return without_packet(order, time, total, Change::Same);
    };
    let known = SectionInterface {
        dropped: now,
        ..*interface
    };
    Step::Record(Found {
        size: total as usize,
        form: Form::Section { order, time },
        change: Change::Now(i, known),
        packet: Some(Entry::Dropped {
            before: interface.dropped,
            now,
        }),
    })
}

/// A block with the statistics of an interface.
fn statistics_block(
    order: Order,
    interfaces: &[SectionInterface],
    time: u128,
    total: u32,
    bytes: &[u8],
) -> Step
    requires parts { HaveParts interfaces.now }
    requires some { 12 ≤ total }
    requires within { total ≤ length bytes.now }
    ensures told { told_by interfaces.now bytes.now result ≡ statistics_block order interfaces.now time total bytes.now }
    ensures sound { IsStep interfaces.now bytes.now result }
{
    if total < 24 {
        return without_packet(order, time, total, Change::Same);
    }
    let options = &bytes[20..total as usize - 4];
    let i = u32_in(order, bytes, 8) as usize;
    statistics_on(order, interfaces, time, total, i, dropped(order, options))
}

/// What a whole block tells, by its type.
fn body_told(
    order: Order,
    interfaces: &[SectionInterface],
    time: u128,
    total: u32,
    kind: u32,
    bytes: &[u8],
) -> Step
    requires parts { HaveParts interfaces.now }
    requires some { 12 ≤ total }
    requires within { total ≤ length bytes.now }
    ensures told { told_by interfaces.now bytes.now result ≡ body_told order interfaces.now time total kind bytes.now }
    ensures sound { IsStep interfaces.now bytes.now result }
{
    match kind {
        1 => interface_block(order, interfaces, time, total, bytes),
        6 => packet_block(
            order,
            interfaces,
            total,
            u32_in(order, bytes, 8) as usize,
            bytes,
        ),
        2 => packet_block(
            order,
            interfaces,
            total,
            usize::from(u16_in(order, bytes, 8)),
            bytes,
        ),
        3 => simple_block(order, interfaces, time, total, bytes),
        5 => statistics_block(order, interfaces, time, total, bytes),
        _ => without_packet(order, time, total, Change::Same),
    }
}

/// A block that isn't a section's header, by its total length.
pub(crate) fn sized_block(
    order: Order,
    interfaces: &[SectionInterface],
    time: u128,
    total: u32,
    bytes: &[u8],
) -> Step
    requires parts { HaveParts interfaces.now }
    requires header { 8 ≤ length bytes.now }
    ensures told { told_by interfaces.now bytes.now result ≡ sized_block order interfaces.now time total bytes.now }
    ensures sound { IsStep interfaces.now bytes.now result }
{
    match unless_whole(order, 12, total, bytes) {
        Some(step) => step,
        None => body_told(
            order,
            interfaces,
            time,
            total,
            u32_in(order, bytes, 0),
            bytes,
        ),
    }
}
