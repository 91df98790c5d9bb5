//! Free cells that are made into ones with a message.

ghost use Rattle.std.specs.Prelude.{◌≡◌, ◌≤◌, length, take};
ghost use Rattle.gev_lanes.specs.Messages.{heard, told, ended, message_of};

use crate::cell::{Cell, CellKind};
use gev_types::Bytes;

// Writes a datagram to the front.
fn write_front(out: &mut [u8], datagram: &[u8])
    requires { length datagram.now ≤ length out.old }
    ensures length { length out.new ≡ length out.old }
    ensures front { take (length datagram.now) out.new ≡ datagram.now }
{
    out[..datagram.len()].copy_from_slice(datagram);
}

/// The cell with a datagram.
pub(crate) fn with_datagram(cell: Cell, moment: u64, datagram: &[u8]) -> Cell
    requires { length datagram.now ≤ 9000 }
    ensures { message_of result ≡ record { moment = moment; says = heard datagram.now } }
{
    let Cell { mut bytes, .. } = cell;
    write_front(bytes.as_mut_slice(), datagram);
    Cell {
        moment,
        kind: CellKind::Datagram(datagram.len() as u32),
        bytes,
    }
}

/// The cell with the moment alone.
pub(crate) fn ticking(cell: Cell, moment: u64) -> Cell
    ensures { message_of result ≡ record { moment = moment; says = told } }
{
    let Cell { bytes, .. } = cell;
    Cell {
        moment,
        kind: CellKind::Tick,
        bytes,
    }
}

/// The cell with the end.
pub(crate) fn ending(cell: Cell, moment: u64) -> Cell
    ensures { message_of result ≡ record { moment = moment; says = ended } }
{
    let Cell { bytes, .. } = cell;
    Cell {
        moment,
        kind: CellKind::End,
        bytes,
    }
}
