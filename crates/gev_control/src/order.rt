//! What is asked of a camera.

ghost use Rattle.std.specs.Prelude.{◌≡◌};
ghost use Rattle.client_machine.specs.Machine.{IsIdle, submitted};
ghost use Rattle.gev_control.specs.Orders.{command_of};

use control_client::{Client, register_write};
use gvcp_wire::Command;

/// A command for a camera (GigE Vision 2.0, GVCP: READREG, WRITEREG, READMEM).
#[derive(Clone, Copy, Debug, PartialEq, Eq)]
pub enum Order {
    /// WRITEREG of one register.
    WriteReg {
        /// The register's address.
        address: u32,
        /// What is written.
        value: u32,
    },
    /// READREG of one register.
    ReadReg {
        /// The register's address.
        address: u32,
    },
    /// READMEM.
    ReadMem {
        /// The first address.
        address: u32,
        /// How many bytes.
        count: u16,
    },
}

/// Submits an order to a client that has no command outstanding.
pub(crate) fn submit_order(client: &mut Client, order: Order, moment: u64)
    requires { IsIdle client.old }
    ensures { client.new ≡ submitted client.old (command_of order) moment }
{
    match order {
        Order::WriteReg { address, value } => {
            let body = register_write(address, value);
            let _req = client.submit(&Command::WriteReg(&body), moment);
        }
        Order::ReadReg { address } => {
            let body = address.to_be_bytes();
            let _req = client.submit(&Command::ReadReg(&body), moment);
        }
        Order::ReadMem { address, count } => {
            let _req = client.submit(&Command::ReadMem { address, count }, moment);
        }
    }
}
