ghost use Rattle.std.specs.Prelude.{◌≡◌, ◌≤◌, true, None, IsTrue};
ghost use Rattle.control_privilege.specs.Control.{primary_of, may_read, may_write, granted, renewed_by, is_lost, ticked};

use crate::holder::Holder;
use gev_types::Peer;
use std::marker::Model;

/// The control channel privilege. Contracts see who has control.
#[derive(Drop)]
pub struct Privilege {
    holder: Option<Holder>,
}

impl Model for Privilege {
    ghost use Rattle.std.specs.Prelude.{Option};
    ghost use Rattle.control_privilege.specs.declared.holder.Holder.{Holder};

    ghost Value = { Option Holder };

    ghost view = { λ p. p.holder };
}

impl Privilege {
    /// Nobody has control.
    pub fn new() -> Privilege
        ensures { result ≡ None }
    {
        Privilege { holder: None }
    }

    /// Releases the control where the heartbeat ran out: where the moment, in milliseconds, is at
    /// least the heartbeat timeout after the last command of the peer that has it. True exactly where
    /// it released.
    pub fn tick(&mut self, moment: u64, heartbeat: u32) -> bool
        ensures released { result ≡ is_lost self.old moment heartbeat }
        ensures holder { self.new ≡ ticked self.old moment heartbeat }
    {
        let Some(holder) = self.holder else {
            return false;
        };
        let is_lost = moment >= holder.last && moment - holder.last >= u64::from(heartbeat);
        if is_lost {
            self.holder = None;
        }
        is_lost
    }

    /// Takes note of a command that came at a moment, in milliseconds. It counts where its sender has
    /// control.
    pub fn renew(&mut self, peer: Peer, moment: u64)
        ensures { self.new ≡ renewed_by self.old peer moment }
    {
        if let Some(holder) = self.holder {
            if holder.peer == peer {
                self.holder = Some(Holder {
                    last: moment,
                    ..holder
                });
            }
        }
    }

    /// Whether a peer may read registers and memory.
    pub fn may_read(&self, peer: Peer) -> bool
        ensures { result ≡ may_read self.now peer }
    {
        match self.holder {
            None => true,
            Some(holder) => !holder.exclusive || holder.peer == peer,
        }
    }

    /// Whether a peer may write a word, which is the privilege register CCP itself or another one.
    pub fn may_write(&self, peer: Peer, ccp: bool) -> bool
        ensures { result ≡ may_write self.now peer ccp }
    {
        match self.holder {
            None => ccp,
            Some(holder) => holder.peer == peer,
        }
    }

    /// Gives control to a peer that writes 1 (exclusive access) or 2 (control access) to CCP at a
    /// moment, in milliseconds, and takes it from one that writes 0.
    pub fn set(&mut self, peer: Peer, value: u32, moment: u64)
        requires allowed { IsTrue (may_write self.old peer true) }
        requires value { value ≤ 2 }
        ensures { self.new ≡ granted peer value moment }
    {
        self.holder = match value {
            0 => None,
            _ => Some(Holder {
                peer,
                last: moment,
                exclusive: value == 1,
            }),
        };
    }

    /// The peer that has control.
    pub fn primary(&self) -> Option<Peer>
        ensures { result ≡ primary_of self.now }
    {
        self.holder.map(|holder| holder.peer)
    }
}
