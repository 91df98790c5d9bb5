ghost use Rattle.std.specs.Prelude.{◌≡◌, IfOk, OnErr, IsOkAnd, MatchResult, Err, option_map};
ghost use Rattle.gentl_handles.specs.Handles.{no_handles, found, child_of};
ghost use Rattle.gentl_handles.specs.Opening.{opening, with_opened};
ghost use Rattle.gentl_handles.specs.Closing.{closing, without_closed};
ghost use Rattle.gentl_handles.specs.Storing.{serials_of};

use crate::closing::close_below;
use crate::handle::Handle;
use crate::level::Level;
use crate::opened::Opened;
use crate::opening::{opening, serial_of};
use crate::storing::{find, find_child, handle_at, look_up};
use arrayvec::ArrayVec;
use gentl_types::{GcError, Shown};
use gev_types::NoMemory;
use slab::Slab;
use std::alloc::Global;
use std::marker::Model;

/// The open handles of GenTL's modules and of the event, at most 64.
///
/// Contracts see a list of them by rising serial, and how many openings there were.
#[derive(Drop)]
pub struct Tree {
    entries: Slab<Opened>,
    order: ArrayVec<usize, 64>,
    openings: u64,
}

impl Model for Tree {
    ghost use Rattle.gentl_handles.specs.Handles.{Handles};
    ghost use Rattle.gentl_handles.specs.Storing.{opened_by, IsTree};

    ghost Value = { Handles };

    ghost view = { λ t. record { handles = opened_by t.entries t.order.items; openings = t.openings } };

    ghost invariant = { λ t. IsTree t.entries t.order.items t.openings };
}

impl Tree {
    /// A tree in which nothing is open.
    pub fn new(alloc: Global) -> Result<Tree, NoMemory>
        ensures { IfOk result (λ tree. tree ≡ no_handles) }
    {
        Ok(Tree {
            entries: Slab::with_capacity(alloc, 64)?,
            order: ArrayVec::new(),
            openings: 0,
        })
    }

    /// Opens the child with this number: a system where there is no parent, else what comes below the
    /// parent.
    pub fn open_child(&mut self, parent: Option<Handle>, index: u32) -> Result<Handle, GcError>
        ensures opened { MatchResult (opening self.old (option_map (λ handle. handle.serial) parent) index)
            (λ opened. IsOkAnd result (λ handle. handle.serial ≡ opened.serial)) (λ refusal. result ≡ Err refusal) }
        ensures after { self.new ≡ with_opened self.old (opening self.old (option_map (λ handle. handle.serial) parent) index) }
        ensures refused { OnErr result (self.new ≡ self.old) }
    {
        let order = self.order.as_slice();
        let opened = opening(&self.entries, order, self.openings, parent, index)?;
        let key = self.entries.insert_reserved(opened);
        self.order.push(key);
        self.openings = opened.serial;
        Ok(Handle {
            serial: opened.serial,
            key,
        })
    }

    /// Closes the handle and all below it, and lists them by rising serial.
    pub fn close_all(&mut self, handle: Handle) -> Result<ArrayVec<Handle, 64>, GcError>
        ensures closed { MatchResult (closing self.old handle.serial)
            (λ serials. IsOkAnd result (λ closed. serials_of closed.items ≡ serials)) (λ refusal. result ≡ Err refusal) }
        ensures after { self.new ≡ without_closed self.old handle.serial (closing self.old handle.serial) }
        ensures refused { OnErr result (self.new ≡ self.old) }
    {
        if look_up(&self.entries, self.order.as_slice(), handle).is_none() {
            return Err(GcError::InvalidHandle(Shown::NoHandle(handle.serial)));
        }
        Ok(close_below(&mut self.entries, &mut self.order, handle.serial))
    }

    /// What the handle stands for, if it's open.
    pub fn level(&self, handle: Handle) -> Option<Level>
        ensures { result ≡ option_map (λ opened. opened.level) (found handle.serial self.now.handles) }
    {
        match look_up(&self.entries, self.order.as_slice(), handle) {
            Some(opened) => Some(opened.level),
            None => None,
        }
    }

    /// The open handle with this serial.
    pub fn by_serial(&self, serial: u64) -> Option<Handle>
        ensures { option_map (λ handle. handle.serial) result ≡ option_map (λ opened. opened.serial) (found serial self.now.handles) }
    {
        match find(&self.entries, self.order.as_slice(), serial) {
            Some(key) => Some(handle_at(&self.entries, key)),
            None => None,
        }
    }

    /// The open handle with this number under the parent, or the open system where there is none.
    pub fn child(&self, parent: Option<Handle>, index: u32) -> Option<Handle>
        ensures { option_map (λ handle. handle.serial) result
            ≡ option_map (λ opened. opened.serial) (child_of (option_map (λ handle. handle.serial) parent) index self.now.handles) }
    {
        let parent = serial_of(parent);
        match find_child(&self.entries, self.order.as_slice(), parent, index) {
            Some(key) => Some(handle_at(&self.entries, key)),
            None => None,
        }
    }
}
