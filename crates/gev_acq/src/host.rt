//! Links, clock and client as one value.

ghost use Rattle.std.specs.Prelude.{◌≡◌, false};
ghost use Rattle.client_machine.specs.Machine.{HasSubmittedNone};
ghost use Rattle.gev_control.specs.Ends.{is_fault_end};
ghost use Rattle.gev_control.specs.Sends.{Fails};
ghost use Rattle.gev_control.specs.SetsUp.{SetsUp};

use control_client::Client;
use gev_control::{AcqEnd, setup};
use gev_links::{Clock, Link};
use gev_types::Peer;
use std::sync::Wait;

/// What a reader has of the outside: its links and its clock, with the client of its control channel.
#[derive(Drop)]
pub struct Host<S, M, C> {
    /// The link of the stream.
    pub stream: S,
    /// The control link.
    pub control: M,
    /// The reader's clock.
    pub clock: C,
    /// The client of the control channel.
    pub client: Client,
}

impl<S: Link, M: Link, C: Clock> Host<S, M, C> {
    /// Sets the camera at the peer `camera` up to send its stream to `own`, as `gev_control::setup` does, over the control
    /// link.
    pub(crate) fn set_up<R: Wait>(&mut self, rt: &R, camera: Peer, own: Peer) -> AcqEnd
        requires { HasSubmittedNone self.old.client }
        ensures sets_up { SetsUp camera own
            (record { heard = M.received self.old.control; sent = M.sent self.old.control; told = C.told self.old.clock; client = self.old.client })
            (record { heard = M.received self.new.control; sent = M.sent self.new.control; told = C.told self.new.clock; client = self.new.client }) result }
        ensures fails { Fails false (is_fault_end result) (M.faults self.old.control) (M.faults self.new.control) }
        ensures stream { self.new.stream ≡ self.old.stream }
    {
        setup(
            rt,
            &mut self.client,
            &mut self.control,
            &mut self.clock,
            camera,
            own,
        )
    }
}
