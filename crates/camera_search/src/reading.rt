ghost use Rattle.std.specs.Prelude.{◌≡◌, ◌≤◌, ◌+◌, length};
ghost use Rattle.gvcp_wire.specs.Messages.{ack_view};
ghost use Rattle.camera_search.specs.Discovery.{DISCOVERY_SIZE, bytes_at, discovery_at, discovery_reading};

use crate::discovery_ack::DiscoveryAck;
use gvcp_wire::codes::DISCOVERY_ACK;
use gvcp_wire::{Ack, Status};
use wire_fields::u32_at;

// The bytes of the body.
const BODY_SIZE: usize = 248;

// The bytes of a MAC address.
fn mac_at(body: &[u8], place: usize) -> [u8; 6]
    requires { place + 6 ≤ length body.now }
    ensures { result ≡ bytes_at place 6 body.now }
{
    let mut bytes = [0; 6];
    bytes.copy_from_slice(&body[place..place + 6]);
    bytes
}

// The bytes of a name.
fn name_at(body: &[u8], place: usize) -> [u8; 32]
    requires { place + 32 ≤ length body.now }
    ensures { result ≡ bytes_at place 32 body.now }
{
    let mut bytes = [0; 32];
    bytes.copy_from_slice(&body[place..place + 32]);
    bytes
}

// The bytes of the manufacturer's information.
fn information_at(body: &[u8], place: usize) -> [u8; 48]
    requires { place + 48 ≤ length body.now }
    ensures { result ≡ bytes_at place 48 body.now }
{
    let mut bytes = [0; 48];
    bytes.copy_from_slice(&body[place..place + 48]);
    bytes
}

// The bytes of a short name.
fn short_name_at(body: &[u8], place: usize) -> [u8; 16]
    requires { place + 16 ≤ length body.now }
    ensures { result ≡ bytes_at place 16 body.now }
{
    let mut bytes = [0; 16];
    bytes.copy_from_slice(&body[place..place + 16]);
    bytes
}

fn discovery_at(body: &[u8]) -> DiscoveryAck
    requires { length body.now ≡ DISCOVERY_SIZE }
    ensures { result ≡ discovery_at body.now }
{
    DiscoveryAck {
        spec_version: u32_at(body, 0x0000),
        device_mode: u32_at(body, 0x0004),
        mac_address: mac_at(body, 0x000A),
        ip_config_options: u32_at(body, 0x0010),
        ip_config_current: u32_at(body, 0x0014),
        current_ip: u32_at(body, 0x0024),
        current_subnet_mask: u32_at(body, 0x0034),
        default_gateway: u32_at(body, 0x0044),
        manufacturer_name: name_at(body, 0x0048),
        model_name: name_at(body, 0x0068),
        device_version: name_at(body, 0x0088),
        manufacturer_specific_information: information_at(body, 0x00A8),
        serial_number: short_name_at(body, 0x00D8),
        user_defined_name: short_name_at(body, 0x00E8),
    }
}

/// What an acknowledge of DISCOVERY tells: one with status 0 and a body of 248 bytes. Its request number isn't
/// looked at.
pub fn read_discovery(ack: &Ack<'_>) -> Option<DiscoveryAck>
    ensures { result ≡ discovery_reading (ack_view ack.now) }
{
    let is_one = ack.status == Status::Success.code() && ack.code == DISCOVERY_ACK;
    if !is_one || ack.body.len() != BODY_SIZE {
        return None;
    }
    Some(discovery_at(ack.body))
}
