ghost use Rattle.std.specs.Prelude.{◌≡◌, ◌≤◌, ◌^◌};
ghost use Rattle.gvsp_std.specs.Blocks.{narrow, ahead, near, chosen};

/// How many block ids there are: 1 to 65,535.
const CYCLE: u64 = 65_535;

/// How far a block may be from the greatest one before it.
const REACH: u64 = 32_767;

/// The id of a block with standard identifiers (GigE Vision 1.x, GVSP packet header): 1 to 65,535, and
/// then 1 again.
pub fn narrow(block: u64) -> u16
    requires { 1 ≤ block }
    ensures { result ≡ narrow block }
{
    ((block - 1) % CYCLE + 1) as u16
}

/// How far the next block with this id is, from `top` on.
fn ahead(top: u64, id: u16) -> u64
    requires { 1 ≤ top }
    ensures { result ≡ ahead top id }
{
    (u64::from(id) + CYCLE - u64::from(narrow(top))) % CYCLE
}

/// The block near `top` that has this id, if it is one from 1 on.
fn near(top: u64, id: u16) -> Option<u64>
    requires some { 1 ≤ top }
    requires top { top ≤ 2 ^ 63 }
    ensures { result ≡ near top id }
{
    let ahead = ahead(top, id);
    if ahead <= REACH {
        Some(top + ahead)
    } else if top + ahead > CYCLE {
        Some(top + ahead - CYCLE)
    } else {
        None
    }
}

/// The block that an id names where `top` is the greatest block so far, 0 before the first.
pub(crate) fn chosen(top: u64, id: u16) -> Option<u64>
    requires { top ≤ 2 ^ 63 }
    ensures { result ≡ chosen top id }
{
    if top == 0 {
        Some(u64::from(id))
    } else {
        near(top, id)
    }
}
