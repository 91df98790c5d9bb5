//! What a captured packet is: its headers, from the link layer to UDP.

ghost use Rattle.std.specs.Prelude.{◌≡◌, ◌+◌, ◌-◌, ◌*◌, ◌/◌, ◌%◌, ◌^◌, ◌≤◌, ◌<◌, ◌==◌, ◌&&◌, ◌||◌, nat_le, min, max, length, drop, Some};
ghost use Rattle.std.specs.Option.{option_copied};
ghost use Rattle.wire_fields.specs.Fields.{number_at};
ghost use Rattle.gev_capture.specs.Sightings.{what_of};
ghost use Rattle.gev_capture.specs.Walking.{captured_packet};
ghost use Rattle.gev_capture.specs.Contents.{seen_as, ipv4, untagged, is_tag, once_tagged, twice_tagged, looped, cooked, network, header_size, total_length, is_udp, is_fragment, datagram_in, udp_sized, udp_seen, ip_seen, network_seen, seen, IsShort, moment_of};

use crate::captured::Captured;
use crate::content::Content;
use gev_types::Peer;
use wire_fields::{u16_at, u32_at};

/// The type of IPv4 in Ethernet's headers and in those that are like them.
const IPV4: u16 = 0x0800;

/// The least bytes of an IPv4 header.
const LEAST_IP_HEADER: usize = 20;

/// The bytes of UDP's header.
const UDP_HEADER_SIZE: usize = 8;

/// What stands behind the type at this place, if that is IPv4's.
fn untagged(bytes: &[u8], at: usize) -> Option<&[u8]>
    requires { at ≤ 100 }
    ensures { option_copied result ≡ untagged at bytes.now }
{
    if bytes.len() < at + 2 {
        return None;
    }
    if u16_at(bytes, at) == IPV4 {
        Some(&bytes[at + 2..])
    } else {
        None
    }
}

/// Whether this is the type of a VLAN's tag.
fn is_tag(kind: u16) -> bool
    ensures { result ≡ is_tag kind }
{
    kind == 0x8100 || kind == 0x88A8
}

/// The same behind at most one tag.
fn once_tagged(bytes: &[u8], at: usize) -> Option<&[u8]>
    requires { at ≤ 90 }
    ensures { option_copied result ≡ once_tagged at bytes.now }
{
    if bytes.len() < at + 2 {
        return None;
    }
    if is_tag(u16_at(bytes, at)) {
        untagged(bytes, at + 4)
    } else {
        untagged(bytes, at)
    }
}

/// The same behind at most two.
fn twice_tagged(bytes: &[u8], at: usize) -> Option<&[u8]>
    requires { at ≤ 80 }
    ensures { option_copied result ≡ twice_tagged at bytes.now }
{
    if bytes.len() < at + 2 {
        return None;
    }
    if is_tag(u16_at(bytes, at)) {
        once_tagged(bytes, at + 4)
    } else {
        untagged(bytes, at)
    }
}

/// What stands behind the header of a loopback.
fn looped(bytes: &[u8]) -> Option<&[u8]>
    ensures { option_copied result ≡ looped bytes.now }
{
    if bytes.len() < 4 {
        return None;
    }
    let family = u32_at(bytes, 0);
    if family == 0x0000_0002 || family == 0x0200_0000 {
        Some(&bytes[4..])
    } else {
        None
    }
}

/// What stands behind Linux's cooked header of this size, with the type at this place.
fn cooked(bytes: &[u8], size: usize, place: usize) -> Option<&[u8]>
    requires { place + 2 ≤ size }
    ensures { option_copied result ≡ cooked size place bytes.now }
{
    if bytes.len() < size {
        return None;
    }
    if u16_at(bytes, place) == IPV4 {
        Some(&bytes[size..])
    } else {
        None
    }
}

/// The network layer of a packet of this link type, if it's IPv4.
fn network(link: u16, bytes: &[u8]) -> Option<&[u8]>
    ensures { option_copied result ≡ network link bytes.now }
{
    if link == 1 {
        twice_tagged(bytes, 12)
    } else if link == 0 || link == 108 {
        looped(bytes)
    } else if link == 101 || link == 228 {
        Some(bytes)
    } else if link == 113 {
        cooked(bytes, 16, 14)
    } else if link == 276 {
        cooked(bytes, 20, 0)
    } else {
        None
    }
}

/// The bytes of the IPv4 header.
fn header_size(ip: &[u8]) -> usize
    requires { 20 ≤ length ip.now }
    ensures size { result ≡ header_size ip.now }
    ensures few { result ≤ 60 }
{
    usize::from(ip[0] % 16) * 4
}

/// Whether it's an IPv4 header of UDP.
fn is_udp(ip: &[u8]) -> bool
    requires { 20 ≤ length ip.now }
    ensures { result ≡ is_udp ip.now }
{
    let size = header_size(ip);
    ip[0] / 16 == 4 && LEAST_IP_HEADER <= size && size <= usize::from(u16_at(ip, 2)) && ip[9] == 17
}

/// Whether it's the header of a fragment.
fn is_fragment(ip: &[u8]) -> bool
    requires { 20 ≤ length ip.now }
    ensures { result ≡ is_fragment ip.now }
{
    u16_at(ip, 6) % 16_384 != 0
}

/// The datagram in these bytes of UDP, of which it has so many.
fn datagram_in<'a>(ip: &[u8], udp: &'a [u8], count: usize) -> Content<'a>
    requires header { 20 ≤ length ip.now }
    requires least { 8 ≤ count }
    requires within { count ≤ length udp.now }
    requires most { count ≤ 65535 }
    ensures seen { seen_as result ≡ datagram_in ip.now udp.now count }
    ensures short { IsShort (seen_as result) }
{
    Content::Datagram {
        sender: Peer {
            address: u32_at(ip, 12),
            port: u16_at(udp, 0),
        },
        receiver: Peer {
            address: u32_at(ip, 16),
            port: u16_at(udp, 2),
        },
        bytes: &udp[UDP_HEADER_SIZE..count],
    }
}

/// UDP, where the IPv4 packet has room for so many bytes.
fn udp_seen<'a>(ip: &[u8], udp: &'a [u8], room: usize) -> Content<'a>
    requires header { 20 ≤ length ip.now }
    requires udp { 8 ≤ length udp.now }
    ensures seen { seen_as result ≡ udp_seen ip.now udp.now room }
    ensures short { IsShort (seen_as result) }
{
    let count = usize::from(u16_at(udp, 4));
    if count < UDP_HEADER_SIZE {
        return Content::Other;
    }
    if room < count {
        return Content::Other;
    }
    if udp.len() < count {
        return Content::Cut;
    }
    datagram_in(ip, udp, count)
}

/// What a packet of the network layer is.
fn ip_seen(ip: &[u8]) -> Content<'_>
    ensures seen { seen_as result ≡ ip_seen ip.now }
    ensures short { IsShort (seen_as result) }
{
    if ip.len() < LEAST_IP_HEADER {
        return Content::Other;
    }
    if !is_udp(ip) {
        return Content::Other;
    }
    if is_fragment(ip) {
        return Content::Fragment;
    }
    let total = usize::from(u16_at(ip, 2));
    let size = header_size(ip);
    if total < size + UDP_HEADER_SIZE {
        return Content::Other;
    }
    if ip.len() < size + UDP_HEADER_SIZE {
        return Content::Cut;
    }
    udp_seen(ip, &ip[size..], total - size)
}

/// What a captured packet of this link type is. Its bytes are lent.
pub fn content_of(link: u16, bytes: &[u8]) -> Content<'_>
    ensures seen { seen_as result ≡ seen link bytes.now }
    ensures short { IsShort (seen_as result) }
{
    match network(link, bytes) {
        Some(ip) => ip_seen(ip),
        None => Content::Other,
    }
}

/// What this is that a record tells of packets. Bytes are lent.
pub fn what_of(packet: Captured<'_>) -> Content<'_>
    ensures seen { seen_as result ≡ what_of (captured_packet packet.entry) }
    ensures short { IsShort (seen_as result) }
{
    match packet {
        Captured::Packet { link, bytes, .. } => content_of(link, bytes),
        Captured::Dropped { before, now } => Content::Dropped { before, now },
    }
}

/// The moment of a packet in whole milliseconds, by the times of the first packet and of this one in
/// nanoseconds and the moment of the packet before it.
pub fn moment_of(first: u128, last: u64, time: u128) -> u64
    ensures { result ≡ moment_of first last time }
{
    let since = time.saturating_sub(first) / 1_000_000;
    let since = since.max(u128::from(last)).min(u128::from(u64::MAX));
    since as u64
}
