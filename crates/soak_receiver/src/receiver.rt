//! The host of a soak run.

ghost use Rattle.std.specs.Prelude.{◌≡◌, ◌∷◌, [], ◌++◌, List, IfOk, OnOk, OnErr};
ghost use Rattle.gev_script.specs.Lines as script_line;
ghost use Rattle.gev_script.specs.Lines.{ScriptLine};
ghost use Rattle.world_laws.specs.Receiver.{Receiver, start, soak_host, waiting};
ghost use Rattle.soak_receiver.specs.Moves.{heard_line};
ghost use Rattle.soak_receiver.specs.Stocking.{start_lines};
ghost use Rattle.soak_receiver.specs.Standing.{HostStands, HostTakes, numbers_in};

use crate::counts::SoakCounts;
use crate::hearing::receive_datagram;
use crate::starting::begin_host;
use crate::taking::take_and_queue;
use crate::ticking::tell_moment;
use gev_types::NoMemory;
use script_replay::Running;
use std::alloc::Global;
use std::marker::Model;

/// The receiver of a soak run's stream, with its board of four buffers of 3072 bytes, and the application
/// that takes them.
///
/// Contracts say for which receiver of the definitions it stands, and behind which lines of a replay
/// script.
#[derive(Drop)]
pub struct SoakReceiver {
    running: Running,
    taken: u64,
    complete: u64,
    incomplete: u64,
}

impl Model for SoakReceiver {
    ghost use Rattle.soak_receiver.specs.Standing.{Hosting};
    ghost use Rattle.soak_receiver.specs.Moves.{IsHosting};

    ghost Value = { Hosting };

    ghost view = { λ h. record { running = h.running; taken = h.taken; complete = h.complete; incomplete = h.incomplete } };

    ghost invariant = { λ h. IsHosting h.running };
}

impl SoakReceiver {
    /// A host that heard nothing yet: its four buffers are in the pool, and its stream is started. All
    /// memory that hearing needs is taken here.
    pub fn new(alloc: Global) -> Result<SoakReceiver, NoMemory>
        ensures { IfOk result (λ host. HostStands host start_lines start) }
    {
        let running = begin_host(alloc)?;
        Ok(SoakReceiver {
            running,
            taken: 0,
            complete: 0,
            incomplete: 0,
        })
    }

    /// Hears a datagram of the stream, from the GVSP header on.
    pub fn hear(&mut self, bytes: &[u8])
        ensures { (lines : List ScriptLine) (r : Receiver) → HostStands self.old lines r → HostStands self.new (lines ++ heard_line bytes.now ∷ []) (soak_host.hears r bytes.now) }
    {
        receive_datagram(&mut self.running, bytes);
    }

    /// Tells the moment, in milliseconds, and adds the packet resend commands that it brings, each as the 28
    /// bytes that are sent.
    pub fn tick(&mut self, moment: u64, requests: &mut Vec<[u8; 28]>) -> Result<(), NoMemory>
        ensures stands { (lines : List ScriptLine) (r : Receiver) → HostStands self.old lines r → HostStands self.new (lines ++ script_line.tick moment ∷ []) (soak_host.ticks r moment) }
        ensures requests { (lines : List ScriptLine) (r : Receiver) → HostStands self.old lines r → OnOk result (requests.new.items ≡ requests.old.items ++ soak_host.requests r moment) }
    {
        tell_moment(&mut self.running, moment, requests)
    }

    /// Takes the output's first buffer: adds its take line, returns it and queues it. The answer is false
    /// where there is nothing to take. With NoMemory no line is added.
    pub fn take(&mut self, alloc: Global, out: &mut Vec<u8>) -> Result<bool, NoMemory>
        ensures takes { (lines : List ScriptLine) (r : Receiver) → HostStands self.old lines r → IfOk result (λ took. HostTakes (waiting r.board) took lines r out.old.items out.new.items self.new) }
        ensures untold { OnErr result (out.new.items ≡ out.old.items) }
    {
        match take_and_queue(alloc, &mut self.running, out)? {
            None => Ok(false),
            Some(complete) => {
                self.taken = self.taken.saturating_add(1);
                if complete {
                    self.complete = self.complete.saturating_add(1);
                } else {
                    self.incomplete = self.incomplete.saturating_add(1);
                }
                Ok(true)
            }
        }
    }

    /// Whether no block is open.
    pub fn is_idle(&self) -> bool
        ensures { (lines : List ScriptLine) (r : Receiver) → HostStands self.now lines r → result ≡ soak_host.is_idle r }
    {
        self.running.acq.open_blocks() == 0
    }

    /// What it counted.
    pub fn numbers(&self) -> SoakCounts
        ensures { (lines : List ScriptLine) (r : Receiver) → HostStands self.now lines r → numbers_in result ≡ soak_host.numbers r }
    {
        let counts = self.running.acq.counts();
        SoakCounts {
            taken: self.taken,
            complete: self.complete,
            incomplete: self.incomplete,
            underrun: counts.underrun,
            requests: counts.requests,
        }
    }
}
