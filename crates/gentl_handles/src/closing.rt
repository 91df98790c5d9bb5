ghost use Rattle.std.specs.Prelude.{◌≡◌, ◌<◌, ◌+◌, ◌==◌, length, remove};
ghost use Rattle.std.specs.List.{list_any};
ghost use Rattle.gentl_handles.specs.Closing.{falls, is_among, sorted_by};
ghost use Rattle.gentl_handles.specs.Storing.{opened_by, serials_of, AreStored};

use crate::handle::Handle;
use crate::opened::Opened;
use crate::storing::opened_at;
use arrayvec::ArrayVec;
use slab::Slab;

/// Whether the handle is the one that is closed, or its parent was closed before.
fn falls(serial: u64, closed: &[Handle], opened: Opened) -> bool
    ensures { result ≡ falls serial (serials_of closed.now) opened }
{
    opened.serial == serial || is_among(closed, opened.parent)
}

fn is_among(closed: &[Handle], parent: Option<u64>) -> bool
    ensures { result ≡ is_among (serials_of closed.now) parent }
{
    match parent {
        Some(parent) => contains(closed, parent),
        None => false,
    }
}

fn contains(closed: &[Handle], serial: u64) -> bool
    ensures { result ≡ list_any (λ handle. handle.serial == serial) closed.now }
{
    closed.iter().any(|handle| handle.serial == serial)
}

/// Takes the handle with this serial and all below it out, and lists them by rising serial.
pub(crate) fn close_below(
    entries: &mut Slab<Opened>,
    order: &mut ArrayVec<usize, 64>,
    serial: u64,
) -> ArrayVec<Handle, 64>
    requires { AreStored entries.old order.old.items }
    ensures closed { serials_of result.items ≡ (sorted_by serial (opened_by entries.old order.old.items)).closed }
    ensures kept { opened_by entries.new order.new.items ≡ (sorted_by serial (opened_by entries.old order.old.items)).kept }
    ensures stored { AreStored entries.new order.new.items }
{
    let mut closed = ArrayVec::new();
    let mut place = 0;
    while place < order.len() {
        let key = order.as_slice()[place];
        let opened = opened_at(entries, key);
        if falls(serial, closed.as_slice(), opened) {
            closed.push(Handle {
                serial: opened.serial,
                key,
            });
            take_out(entries, order, place);
        } else {
            place += 1;
        }
    }
    closed
}

/// Takes the handle at this place of the order out.
fn take_out(entries: &mut Slab<Opened>, order: &mut ArrayVec<usize, 64>, place: usize)
    requires stored { AreStored entries.old order.old.items }
    requires place { place < length order.old.items }
    ensures order { opened_by entries.new order.new.items ≡ remove (opened_by entries.old order.old.items) place }
    ensures len { length order.new.items + 1 ≡ length order.old.items }
    ensures stored { AreStored entries.new order.new.items }
{
    let key = order.remove(place);
    let _ = entries.try_remove(key);
}
