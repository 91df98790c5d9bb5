//! The bytes of a request.

ghost use Rattle.std.specs.Prelude.{◌≡◌, ◌≤◌, ◌^◌, ◌++◌, true, length, drop};
ghost use Rattle.wire_fields.specs.Fields.{spelled};
ghost use Rattle.gvcp_wire.specs.BodyReading.{resend_at};
ghost use Rattle.gvsp_std.specs.Asking.{std_resend_fields};
ghost use Rattle.packet_requests.specs.Requests.{request_number, is_narrow, is_standard, command_in, control_request};

use crate::id_mode::IdMode;
use gvcp_wire::{Resend, write_resend};
use gvsp_std::write_resend_std;
use wire_fields::{u16_at, u32_at, u64_at};

/// The highest bit of a request number.
const REQUEST_BIT: u16 = 0x8000;

/// The bytes of the command with standard identifiers.
const STANDARD_SIZE: usize = 20;

/// The bytes of the command with extended identifiers.
const EXTENDED_SIZE: usize = 28;

/// The bytes of a command's header.
const HEAD_SIZE: usize = 8;

/// The number with the bit set.
#[tactic(auto, using(std::proofs::lemmas::Nat::le_or_r))]
fn request_number(number: u16) -> u16
    ensures is { result ≡ request_number number }
    ensures from { 2 ^ 15 ≤ result }
{
    number | REQUEST_BIT
}

/// What the body of a command with extended identifiers asks for.
fn resend_at(body: &[u8]) -> Resend
    requires { 20 ≤ length body.now }
    ensures { result ≡ resend_at body.now }
{
    Resend {
        channel: u16_at(body, 0),
        first: u32_at(body, 4),
        last: u32_at(body, 8),
        block: u64_at(body, 12),
    }
}

/// Whether the standard form has room for the packet ids, and an id for the block.
fn is_narrow(resend: Resend) -> bool
    ensures { result ≡ is_narrow resend }
{
    1 <= resend.block && resend.first < 1 << 24 && resend.last < 1 << 24
}

/// Whether the camera is asked in the standard form.
fn is_standard(ids: IdMode, resend: Resend) -> bool
    ensures { result ≡ is_standard ids resend }
{
    match ids {
        IdMode::Standard => is_narrow(resend),
        IdMode::Extended => false,
    }
}

/// Writes the command in the standard form to the front.
fn write_standard(out: &mut [u8; EXTENDED_SIZE], number: u16, resend: Resend)
    requires { is_narrow resend ≡ true }
    ensures { out.new ≡ spelled (std_resend_fields number resend) ++ drop 20 out.old }
{
    let mut command = [0; STANDARD_SIZE];
    write_resend_std(&mut command, number, resend);
    out[..STANDARD_SIZE].copy_from_slice(&command);
}

/// Writes the command in one of its forms to the front: how many bytes it has.
fn write_form(out: &mut [u8; EXTENDED_SIZE], standard: bool, number: u16, resend: Resend) -> usize
    requires number { 1 ≤ number }
    requires narrow { standard ≡ true → is_narrow resend ≡ true }
    ensures written { out.new ≡ command_in standard number resend ++ drop result out.old }
    ensures size { result ≡ length (command_in standard number resend) }
{
    if standard {
        write_standard(out, number, resend);
        return STANDARD_SIZE;
    }
    write_resend(out, number, resend);
    EXTENDED_SIZE
}

/// Writes what a receiver's request is on a control link on which a client's commands go too: how many bytes it has.
///
/// The request is PACKETRESEND with extended identifiers (GigE Vision 2.0, PACKETRESEND command). With standard ones a
/// range whose packet ids have more than 24 bits stays in the extended form.
pub fn write_control_request(out: &mut [u8; 28], request: &[u8; 28], ids: IdMode) -> usize
    ensures written { out.new ≡ control_request ids request.now ++ drop result out.old }
    ensures size { result ≡ length (control_request ids request.now) }
    ensures fits { result ≤ 28 }
{
    let resend = resend_at(&request[HEAD_SIZE..]);
    let number = request_number(u16_at(request, 6));
    write_form(out, is_standard(ids, resend), number, resend)
}
