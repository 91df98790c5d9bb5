//! WRITEREG of one register, and the commands that make a camera send its stream.

ghost use Rattle.std.specs.Prelude.{◌≡◌, ◌<◌, Some, slice_get};
ghost use Rattle.gvcp_wire.specs.Messages.{write_reg};
ghost use Rattle.client_machine.specs.Commands.{MaySubmit};
ghost use Rattle.client_machine.specs.Setup.{write_of, setup_commands};

use bootstrap_regs::addresses::{CCP, SCDA0, SCP0, SCPS0};
use byteorder::{BigEndian, ByteOrder};
use client_machine::numbers::{CONTROL_ACCESS, SETUP_PACKET_SIZE, SETUP_SIZE};
use gev_types::Peer;

/// The body of a WRITEREG command of one register.
pub fn register_write(address: u32, value: u32) -> [u8; 8]
    ensures command { write_reg result ≡ write_of address value }
    ensures submitted { MaySubmit (write_reg result) }
{
    let mut bytes = [0; 8];
    BigEndian::write_u32(&mut bytes[..4], address);
    BigEndian::write_u32(&mut bytes[4..], value);
    bytes
}

fn setup_pair(stream: Peer, place: u8) -> [u8; 8]
    requires { place < SETUP_SIZE }
    ensures { slice_get (setup_commands stream) place ≡ Some (write_reg result) }
{
    match place {
        0 => register_write(CCP, CONTROL_ACCESS),
        1 => register_write(SCPS0, SETUP_PACKET_SIZE),
        2 => register_write(SCDA0, stream.address),
        _ => register_write(SCP0, u32::from(stream.port)),
    }
}

/// The body of the WRITEREG command of the setup that comes after so many others: control, the packets'
/// size, and the address and the port to which the stream goes, which opens the channel.
pub fn setup_write(stream: Peer, place: u8) -> [u8; 8]
    requires { place < SETUP_SIZE }
    ensures command { slice_get (setup_commands stream) place ≡ Some (write_reg result) }
    ensures submitted { MaySubmit (write_reg result) }
{
    setup_pair(stream, place)
}
