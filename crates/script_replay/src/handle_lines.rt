//! Lines that open and close handles.

ghost use Rattle.std.specs.Prelude.{◌≡◌, [], OnOk, Err, MatchResult, IsOkAnd};
ghost use Rattle.gentl_handles.specs.Opening.{opening, with_opened};
ghost use Rattle.gentl_handles.specs.Closing.{closing, without_closed};
ghost use Rattle.gentl_handles.specs.Storing.{serials_of};
ghost use Rattle.script_trace.specs.HandleLines.{opened_text};

use crate::answers::line_refused;
use arrayvec::ArrayVec;
use gentl_handles::{Handle, Tree};
use gentl_types::{GcError, Shown};
use gev_report::line_number;
use gev_types::NoMemory;
use std::alloc::Global;

/// Opens the child with this number under the open handle with this serial; a system where there is none.
fn open_under(tree: &mut Tree, parent: Option<u64>, index: u32) -> Result<Handle, GcError>
    ensures opened { MatchResult (opening tree.old parent index)
        (λ opened. IsOkAnd result (λ handle. handle.serial ≡ opened.serial)) (λ refusal. result ≡ Err refusal) }
    ensures after { tree.new ≡ with_opened tree.old (opening tree.old parent index) }
{
    match parent {
        None => tree.open_child(None, index),
        Some(serial) => match tree.by_serial(serial) {
            Some(handle) => tree.open_child(Some(handle), index),
            None => Err(GcError::InvalidHandle(Shown::NoHandle(serial))),
        },
    }
}

/// Opens a handle, and tells its serial.
pub(crate) fn open_child(
    alloc: Global,
    tree: &mut Tree,
    parent: Option<u64>,
    index: u32,
    out: &mut Vec<u8>,
) -> Result<(), NoMemory>
    requires empty { out.old.items ≡ [] }
    ensures text { OnOk result (out.new.items ≡ opened_text (opening tree.old parent index)) }
    ensures after { tree.new ≡ with_opened tree.old (opening tree.old parent index) }
{
    match open_under(tree, parent, index) {
        Ok(handle) => line_number(alloc, "open", handle.serial, out),
        Err(error) => line_refused(alloc, "open", error, out),
    }
}

/// Closes the open handle with this serial and all below it.
pub(crate) fn close_under(tree: &mut Tree, serial: u64) -> Result<ArrayVec<Handle, 64>, GcError>
    ensures closed { MatchResult (closing tree.old serial)
        (λ serials. IsOkAnd result (λ closed. serials_of closed.items ≡ serials)) (λ refusal. result ≡ Err refusal) }
    ensures after { tree.new ≡ without_closed tree.old serial (closing tree.old serial) }
{
    match tree.by_serial(serial) {
        Some(handle) => tree.close_all(handle),
        None => Err(GcError::InvalidHandle(Shown::NoHandle(serial))),
    }
}
