ghost use Rattle.std.specs.Prelude.{◌≡◌, ℕ, option_map};
ghost use Rattle.gentl_handles.specs.Calls.{AreOrdered};
ghost use Rattle.gentl_handles.specs.Opening.{opening, child_level, level_below, most_index};
ghost use Rattle.gentl_handles.specs.Storing.{opened_by, AreStored};

use crate::handle::Handle;
use crate::level::Level;
use crate::opened::Opened;
use crate::storing::{find_child, look_up, opened_at};
use gentl_types::{GcError, Shown};
use slab::Slab;

/// How many handles can be open.
const MOST_OPEN: usize = 64;

/// The serial of the handle above, if there is one.
pub(crate) fn serial_of(parent: Option<Handle>) -> Option<u64>
    ensures { result ≡ option_map (λ handle. handle.serial) parent }
{
    match parent {
        Some(handle) => Some(handle.serial),
        None => None,
    }
}

/// The level of a child: nothing opens under an event.
fn level_below(level: Level) -> Option<Level>
    ensures { result ≡ level_below level }
{
    match level {
        Level::System => Some(Level::Interface),
        Level::Interface => Some(Level::Device),
        Level::Device => Some(Level::Stream),
        Level::Stream => Some(Level::Event),
        Level::Event => None,
    }
}

/// The highest number of a child with this level.
fn most_index(level: Level) -> u32
    ensures { result ≡ most_index level }
{
    match level {
        Level::System | Level::Event => 0,
        Level::Interface | Level::Device | Level::Stream => 3,
    }
}

/// What opens under this parent, if it's open.
fn child_level(entries: &Slab<Opened>, order: &[usize], parent: Option<Handle>) -> Option<Level>
    requires stored { AreStored entries.now order.now }
    requires ordered { (openings : ℕ) × AreOrdered 0 (opened_by entries.now order.now) openings }
    ensures { result ≡ child_level (option_map (λ handle. handle.serial) parent) (opened_by entries.now order.now) }
{
    match parent {
        Some(handle) => level_below(look_up(entries, order, handle)?.level),
        None => Some(Level::System),
    }
}

/// The child that opens, or why it's refused.
pub(crate) fn opening(
    entries: &Slab<Opened>,
    order: &[usize],
    openings: u64,
    parent: Option<Handle>,
    index: u32,
) -> Result<Opened, GcError>
    requires stored { AreStored entries.now order.now }
    requires ordered { AreOrdered 0 (opened_by entries.now order.now) openings }
    ensures { result ≡ opening (record { handles = opened_by entries.now order.now; openings = openings }) (option_map (λ handle. handle.serial) parent) index }
{
    let above = serial_of(parent);
    let Some(level) = child_level(entries, order, parent) else {
        return Err(GcError::InvalidHandle(Shown::NoHandle(above.unwrap_or(0))));
    };
    if index > most_index(level) {
        return Err(GcError::InvalidIndex(index));
    }
    if let Some(key) = find_child(entries, order, above, index) {
        let serial = opened_at(entries, key).serial;
        return Err(GcError::ResourceInUse(Shown::NoHandle(serial)));
    }
    if order.len() == MOST_OPEN || openings == u64::MAX {
        return Err(GcError::ResourceExhausted);
    }
    Ok(Opened {
        serial: openings + 1,
        level,
        parent: above,
        index,
    })
}
