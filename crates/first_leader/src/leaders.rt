//! Leaders that fit, with standard identifiers or with extended ones.

ghost use Rattle.std.specs.Prelude.{◌≡◌, ◌≤◌, length};
ghost use Rattle.gvsp_std.specs.Widening.{widened};
ghost use Rattle.first_leader.specs.Leaders.{leader_in, wide_leader, found_in, first_leader_in};

use crate::leading::FirstLeader;
use block_image::does_fit;
use gvsp_std::Widener;
use gvsp_wire::parse;
use packet_requests::IdMode;
use stream_packets::LeaderInfo;

/// The room for a datagram, in bytes.
const ROOM: usize = 9000;

/// The room for a datagram that was widened.
const WIDE_ROOM: usize = ROOM + 12;

/// The bytes of the headers of IP, UDP and GVSP, with standard and with extended identifiers.
const STANDARD_HEADERS: u16 = 36;

const EXTENDED_HEADERS: u16 = 48;

// What a leader that fits says, if the datagram is one.
fn leader_in(bytes: &[u8]) -> Option<LeaderInfo>
    ensures { result ≡ leader_in bytes.now }
{
    match parse(bytes) {
        Ok(packet) => {
            if does_fit(0, &packet) {
                packet.leader_info()
            } else {
                None
            }
        }
        Err(_) => None,
    }
}

// The same of the datagram with extended identifiers that this one becomes.
fn wide_leader(bytes: &[u8]) -> Option<LeaderInfo>
    requires { length bytes.now ≤ 9000 }
    ensures { result ≡ wide_leader (widened 0 bytes.now) }
{
    let mut wide = [0; WIDE_ROOM];
    let mut widener = Widener::new();
    match widener.widen(bytes, &mut wide) {
        Ok(len) => leader_in(&wide[..len.min(ROOM)]),
        Err(_) => None,
    }
}

// What the first of two leaders tells.
fn found_in(
    packet_size: u16,
    own: Option<LeaderInfo>,
    wide: Option<LeaderInfo>,
) -> Option<FirstLeader>
    ensures { result ≡ found_in packet_size own wide }
{
    match own {
        Some(info) => Some(FirstLeader {
            info,
            ids: IdMode::Extended,
            payload_size: packet_size.saturating_sub(EXTENDED_HEADERS),
        }),
        None => match wide {
            Some(info) => Some(FirstLeader {
                info,
                ids: IdMode::Standard,
                payload_size: packet_size.saturating_sub(STANDARD_HEADERS),
            }),
            None => None,
        },
    }
}

/// What a datagram tells of a stream with packets of this size, with the headers of IP, UDP and GVSP, where it's a leader
/// that fits: with extended identifiers, or with standard ones, as the first of its stream.
pub fn first_leader_in(packet_size: u16, bytes: &[u8]) -> Option<FirstLeader>
    requires { length bytes.now ≤ 9000 }
    ensures { result ≡ first_leader_in packet_size bytes.now }
{
    found_in(packet_size, leader_in(bytes), wide_leader(bytes))
}
