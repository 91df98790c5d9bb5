//! What the camera does with a command (GigE Vision 2.0, GVCP).

use super::Camera;
use crate::acknowledge::{MESSAGE_SIZE, acknowledge};
use crate::done::Done;
use crate::kept::Kept;
use crate::messages::{copied, is_access, is_behind};
use crate::received::Received;
use gev_types::Peer;
use gvcp_wire::codes::{DISCOVERY_CMD, MAX_BODY_SIZE, PACKETRESEND_CMD};
use gvcp_wire::{Command, CommandHead, Status, read_resend};

impl Camera {
    ghost use Rattle.std.specs.Prelude.{◌≡◌, ◌≤◌, ◌||◌, length, take, option_map};
    ghost use Rattle.gvcp_wire.specs.Messages.{view};
    ghost use Rattle.control_privilege.specs.Control.{is_primary};
    ghost use Rattle.camera_machine.specs.Commands.{ack_for, counted, remembered, finished, other_answer, executed_as, from_primary, resend_in, resent, obeyed};
    ghost use Rattle.camera_sim.specs.Doing.{execution_of, HasRoom, finished_camera};
    ghost use Rattle.camera_sim.specs.Obeying.{ack_of, FitsMessage, CanKeep, IsAnswered};

    // Counts a command whose sender had control, or got it by the command.
    fn count(&mut self, was_primary: bool, has_granted: bool)
        ensures { self.new ≡ counted self.old (was_primary || has_granted) }
    {
        if was_primary || has_granted {
            self.executed = self.executed.saturating_add(1);
        }
    }

    // Keeps a command and its acknowledge where its sender has control now.
    fn remember(
        &mut self,
        peer: Peer,
        bytes: &[u8],
        req: u16,
        ack: Option<usize>,
        out: &[u8; MESSAGE_SIZE],
    )
        requires bytes { length bytes.now ≤ MESSAGE_SIZE }
        requires ack { FitsMessage ack }
        ensures { self.new ≡ remembered self.old (is_primary self.old.holder peer)
            (record { bytes = bytes.now; req = req; ack = ack_of ack out.now }) }
    {
        if !self.is_primary(peer) {
            return;
        }
        let len = bytes.len();
        self.command[..len].copy_from_slice(bytes);
        let ack = copied(ack, out, &mut self.answer);
        self.kept = Some(Kept { len, req, ack });
    }

    // Acknowledges, counts and keeps a register or memory command that was executed.
    fn finish(
        &mut self,
        was_primary: bool,
        received: &Received<'_>,
        done: Done,
        body: &[u8; MAX_BODY_SIZE],
        out: &mut [u8; MESSAGE_SIZE],
    ) -> Option<usize>
        requires request { 1 ≤ received.now.head.req }
        requires bytes { length received.now.bytes.now ≤ MESSAGE_SIZE }
        requires body { done.len ≤ MAX_BODY_SIZE }
        ensures state { self.new ≡ finished_camera was_primary received.now.peer received.now.bytes.now received.now.head self.old done.status (take done.len body.now) done.has_granted }
        ensures ack { ack_of result out.new ≡ ack_for received.now.head done.status (take done.len body.now) }
        ensures fits { FitsMessage result }
    {
        let ack = acknowledge(received.head, done.status, &body[..done.len], out);
        self.count(was_primary, done.has_granted);
        self.remember(received.peer, received.bytes, received.head.req, ack, out);
        ack
    }

    // Executes a register or memory command.
    fn access(
        &mut self,
        received: &Received<'_>,
        command: &Command<'_>,
        out: &mut [u8; MESSAGE_SIZE],
    ) -> Option<usize>
        requires request { 1 ≤ received.now.head.req }
        requires bytes { length received.now.bytes.now ≤ MESSAGE_SIZE }
        requires room { HasRoom (view command.now) }
        ensures { IsAnswered self.new result out.new
            (finished (is_primary self.old.holder received.now.peer) received.now.peer received.now.bytes.now received.now.head
            (execution_of self.old received.now.peer received.now.moment (view command.now))) }
    {
        let was_primary = self.is_primary(received.peer);
        let mut body = [0; MAX_BODY_SIZE];
        let done = self.execute(received.peer, command, received.moment, &mut body);
        self.finish(was_primary, received, done, &body, out)
    }

    // Answers a command that is no register or memory command and no PACKETRESEND.
    fn answer_other(&self, head: CommandHead, out: &mut [u8; MESSAGE_SIZE]) -> Option<usize>
        requires { 1 ≤ head.req }
        ensures { IsAnswered self.now result out.new (other_answer self.now head) }
    {
        if head.code != DISCOVERY_CMD {
            return acknowledge(head, Status::NotImplemented, &[], out);
        }
        let mut body = [0; 248];
        self.regs.discovery(&mut body);
        acknowledge(head, Status::Success, &body, out)
    }

    // Executes a command, or answers one whose body hasn't the form of its code.
    fn execute_as(&mut self, received: &Received<'_>, out: &mut [u8; MESSAGE_SIZE]) -> Option<usize>
        requires request { 1 ≤ received.now.head.req }
        requires keeps { CanKeep received.now.bytes.now (option_map view received.now.command) }
        ensures { IsAnswered self.new result out.new
            (executed_as self.old received.now.peer received.now.bytes.now received.now.moment received.now.head (option_map view received.now.command)) }
    {
        let Some(command) = &received.command else {
            return acknowledge(received.head, Status::InvalidHeader, &[], out);
        };
        match command {
            Command::Other { .. } => self.answer_other(received.head, out),
            _ => self.access(received, command, out),
        }
    }

    // Answers a register or memory command of the peer that has control: a repeat of the kept one by the
    // kept acknowledge, and one that is behind it not at all.
    fn obey_primary(
        &mut self,
        received: &Received<'_>,
        out: &mut [u8; MESSAGE_SIZE],
    ) -> Option<usize>
        requires request { 1 ≤ received.now.head.req }
        requires keeps { CanKeep received.now.bytes.now (option_map view received.now.command) }
        ensures { IsAnswered self.new result out.new
            (from_primary self.old.kept self.old received.now.peer received.now.bytes.now received.now.moment received.now.head (option_map view received.now.command)) }
    {
        let Some(kept) = self.kept else {
            return self.execute_as(received, out);
        };
        if received.bytes == &self.command[..kept.len] {
            return copied(kept.ack, &self.answer, out);
        }
        if is_behind(kept.req, received.head.req) {
            return None;
        }
        self.execute_as(received, out)
    }

    // Lets the packets wait that the peer which has control asks for again, while the channel is open.
    fn resend(&mut self, received: &Received<'_>)
        ensures { self.new ≡ resent self.old received.now.peer (resend_in received.now.head (option_map view received.now.command)) }
    {
        if !self.is_primary(received.peer) || !self.is_open() {
            return;
        }
        let Some(Command::Other { body, .. }) = &received.command else {
            return;
        };
        let Some(resend) = read_resend(received.head, body) else {
            return;
        };
        self.stream.reply(resend);
    }

    // Obeys a command, or one whose body hasn't the form of its code.
    pub(super) fn obey(
        &mut self,
        received: &Received<'_>,
        out: &mut [u8; MESSAGE_SIZE],
    ) -> Option<usize>
        requires request { 1 ≤ received.now.head.req }
        requires keeps { CanKeep received.now.bytes.now (option_map view received.now.command) }
        ensures { IsAnswered self.new result out.new
            (obeyed self.old received.now.peer received.now.bytes.now received.now.moment received.now.head (option_map view received.now.command)) }
    {
        if received.head.code == PACKETRESEND_CMD {
            self.resend(received);
            return None;
        }
        if is_access(received.head.code) && self.is_primary(received.peer) {
            return self.obey_primary(received, out);
        }
        self.execute_as(received, out)
    }
}
