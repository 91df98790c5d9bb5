ghost use Rattle.std.specs.Prelude.{◌≡◌, ℕ, option_map};
ghost use Rattle.gentl_handles.specs.Calls.{AreOrdered};
ghost use Rattle.gentl_handles.specs.Handles.{found, child_of, is_child, same_parent};
ghost use Rattle.gentl_handles.specs.Storing.{opened_at, opened_by, AreStored};

use crate::handle::Handle;
use crate::level::Level;
use crate::opened::Opened;
use slab::Slab;

/// What is read under a key that holds nothing.
const NOTHING_OPENED: Opened = Opened {
    serial: 0,
    level: Level::System,
    parent: None,
    index: 0,
};

/// What is known of the handle under this key.
pub(crate) fn opened_at(entries: &Slab<Opened>, key: usize) -> Opened
    ensures { result ≡ opened_at entries.now key }
{
    entries.get(key).copied().unwrap_or(NOTHING_OPENED)
}

/// The handle under this key.
pub(crate) fn handle_at(entries: &Slab<Opened>, key: usize) -> Handle
    ensures { result.serial ≡ (opened_at entries.now key).serial }
{
    Handle {
        serial: opened_at(entries, key).serial,
        key,
    }
}

/// The key of the open handle with this serial.
pub(crate) fn find(entries: &Slab<Opened>, order: &[usize], serial: u64) -> Option<usize>
    ensures { option_map (λ key. opened_at entries.now key) result ≡ found serial (opened_by entries.now order.now) }
{
    for key in order {
        if opened_at(entries, *key).serial == serial {
            return Some(*key);
        }
    }
    None
}

/// The key of the open handle with this number under this parent.
pub(crate) fn find_child(
    entries: &Slab<Opened>,
    order: &[usize],
    parent: Option<u64>,
    index: u32,
) -> Option<usize>
    ensures { option_map (λ key. opened_at entries.now key) result ≡ child_of parent index (opened_by entries.now order.now) }
{
    for key in order {
        if is_child(parent, index, opened_at(entries, *key)) {
            return Some(*key);
        }
    }
    None
}

fn is_child(parent: Option<u64>, index: u32, opened: Opened) -> bool
    ensures { result ≡ is_child parent index opened }
{
    is_same_parent(opened.parent, parent) && opened.index == index
}

fn is_same_parent(a: Option<u64>, b: Option<u64>) -> bool
    ensures { result ≡ same_parent a b }
{
    match (a, b) {
        (None, None) => true,
        (Some(a), Some(b)) => a == b,
        _ => false,
    }
}

/// What is known of an open handle. Its key is looked at first; it has another where the handle is of
/// another tree, or was closed and its key used again.
pub(crate) fn look_up(entries: &Slab<Opened>, order: &[usize], handle: Handle) -> Option<Opened>
    requires stored { AreStored entries.now order.now }
    requires ordered { (openings : ℕ) × AreOrdered 0 (opened_by entries.now order.now) openings }
    ensures { result ≡ found handle.serial (opened_by entries.now order.now) }
{
    let kept = entries.get(handle.key).copied();
    if let Some(opened) = kept {
        if opened.serial == handle.serial {
            return Some(opened);
        }
    }
    match find(entries, order, handle.serial) {
        Some(key) => Some(opened_at(entries, key)),
        None => None,
    }
}
