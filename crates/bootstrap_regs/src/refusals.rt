ghost use Rattle.std.specs.Prelude.{◌≡◌};
ghost use Rattle.bootstrap_regs.specs.Registers.{allows, refused_by, address_refusal, value_refusal};

use crate::addresses::END;
use crate::lookup::register_at;
use crate::table::Writable;
use gvcp_wire::Status;

/// Why there is no word at an address, if there is none: it isn't a multiple of 4, or it isn't
/// within the register space.
pub fn address_refusal(address: u32) -> Option<Status>
    ensures { result ≡ address_refusal address }
{
    if address % 4 != 0 {
        Some(Status::BadAlignment)
    } else if address >= END {
        Some(Status::InvalidAddress)
    } else {
        None
    }
}

fn allows(writable: Writable, value: u32) -> bool
    ensures { result ≡ allows writable value }
{
    match writable {
        Writable::No => false,
        Writable::Any => true,
        Writable::Between(least, most) => least <= value && value <= most,
        Writable::PacketSize => {
            let size = value % 0x1_0000;
            value < 0x8000_0000 && value / 0x1_0000 % 0x4000 == 0 && (576..=9000).contains(&size)
        }
    }
}

fn refused_by(writable: Writable, value: u32) -> Option<Status>
    ensures { result ≡ refused_by writable value }
{
    if writable == Writable::No {
        Some(Status::WriteProtect)
    } else if allows(writable, value) {
        None
    } else {
        Some(Status::InvalidParameter)
    }
}

/// Why a value can't be written to the word at an address, if it can't: the word can only be read,
/// or the register doesn't take the value.
pub fn value_refusal(address: u32, value: u32) -> Option<Status>
    ensures { result ≡ value_refusal address value }
{
    match register_at(address) {
        Some(register) => refused_by(register.writable, value),
        None => Some(Status::WriteProtect),
    }
}
