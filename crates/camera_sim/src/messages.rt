//! Repeats of commands, and the bytes that are kept of them.

ghost use Rattle.std.specs.Prelude.{◌≡◌, ◌≤◌, length, take, option_map, IfSome};
ghost use Rattle.camera_machine.specs.Commands.{is_behind, is_access};

use crate::acknowledge::MESSAGE_SIZE;
use gvcp_wire::codes::{READMEM_CMD, READREG_CMD, WRITEMEM_CMD, WRITEREG_CMD};

/// Whether a code is one of the four register and memory commands.
pub(crate) fn is_access(code: u16) -> bool
    ensures { result ≡ is_access code }
{
    code == READREG_CMD || code == WRITEREG_CMD || code == READMEM_CMD || code == WRITEMEM_CMD
}

/// Whether a request number is 1 to 32,767 places behind the latest one, on the cycle from 1 to 65,535.
pub(crate) fn is_behind(latest: u16, req: u16) -> bool
    ensures { result ≡ is_behind latest req }
{
    let places = (u32::from(latest) + 65_535 - u32::from(req)) % 65_535;
    1 <= places && places <= 32_767
}

/// Copies a message of this length, where there is one, to the front of `out`.
pub(crate) fn copied(
    len: Option<usize>,
    from: &[u8; MESSAGE_SIZE],
    out: &mut [u8; MESSAGE_SIZE],
) -> Option<usize>
    requires { IfSome len (λ n. n ≤ MESSAGE_SIZE) }
    ensures same { option_map (λ n. take n out.new) result ≡ option_map (λ n. take n from.now) len }
    ensures len { result ≡ len }
    ensures fits { IfSome result (λ n. n ≤ MESSAGE_SIZE) }
{
    match len {
        None => None,
        Some(n) => {
            out[..n].copy_from_slice(&from[..n]);
            Some(n)
        }
    }
}
