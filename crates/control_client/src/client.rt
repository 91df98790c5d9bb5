use crate::sending::Sending;
use crate::steps;
use bitflags::Flags;
use bootstrap_regs::addresses::CCP;
use byteorder::{BigEndian, ByteOrder};
use client_machine::Outcome;
use client_machine::numbers::{SEND_LIMIT, SENDS};
use gvcp_wire::codes::{HEADER_SIZE, MAX_BODY_SIZE};
use gvcp_wire::{Ack, Command, CommandFlags, CommandHead, parse_ack, read_pending, write_command};
use std::marker::Model;

const MESSAGE_SIZE: usize = HEADER_SIZE + MAX_BODY_SIZE;

/// The host's side of the control channel: one command outstanding.
///
/// Contracts see the state of the machine that the crate `client_machine` defines. No call takes
/// memory.
#[derive(Drop)]
pub struct Client {
    last_req: u16,
    asked: Option<Sending>,
    message: [u8; MESSAGE_SIZE],
    ended: Option<u64>,
    body: [u8; MAX_BODY_SIZE],
    body_len: usize,
    limit: u64,
    // How many heartbeats told 0. No clause speaks of it.
    gone: u64,
}

impl Model for Client {
    ghost use Rattle.std.specs.Prelude.{take};
    ghost use Rattle.client_machine.specs.Machine.{Client as Machine};
    ghost use Rattle.control_client.specs.Seen.{asked_of, IsClient};

    ghost Value = { Machine };

    ghost view = { λ c. record { last_req = c.last_req; asked = asked_of c.asked c.message; ended = c.ended; body = take c.body_len c.body; limit = c.limit } };

    ghost invariant = { λ c. IsClient c.asked c.message c.body c.body_len };
}

impl Client {
    ghost use Rattle.std.specs.Prelude.{◌≡◌, ◌↔◌, ◌≤◌, length, IsTrue};
    ghost use Rattle.std.specs.Option.{option_copied};
    ghost use Rattle.std.specs.Borrow.{sem};
    ghost use Rattle.gvcp_wire.specs.Messages.{view, ack_view};
    ghost use Rattle.client_machine.specs.Times.{SEND_LIMIT as LIMIT};
    ghost use Rattle.client_machine.specs.Commands.{MaySubmit, next_req};
    ghost use Rattle.client_machine.specs.Machine.{new_client, HasSubmittedNone, IsIdle, outcome_after, with_command, submit_answer, to_send, ticked, received, ended_by};
    ghost use Rattle.client_machine.specs.Events.{step, submits, ticks, receives};
    ghost use Rattle.control_client.specs.Lending.{EndsTaken};
    ghost use Rattle.control_client.specs.Values.{value_of};

    /// A client that submitted nothing yet, with a limit of 40 milliseconds for each send.
    pub fn new() -> Client
        ensures new { result ≡ new_client LIMIT }
        ensures unsubmitted { HasSubmittedNone result }
    {
        Client::with_limit(SEND_LIMIT)
    }

    /// A client that submitted nothing yet. So many milliseconds after each send of a command, and after
    /// what PENDING adds to it, comes the next one, or the end of the command after the third.
    pub fn with_limit(limit: u64) -> Client
        ensures new { result ≡ new_client limit }
        ensures unsubmitted { HasSubmittedNone result }
    {
        Client {
            last_req: 0,
            asked: None,
            message: [0; MESSAGE_SIZE],
            ended: None,
            body: [0; MAX_BODY_SIZE],
            body_len: 0,
            limit,
            gone: 0,
        }
    }

    /// Whether no command is outstanding.
    pub fn is_idle(&self) -> bool
        ensures { IsTrue result ↔ IsIdle self.now }
    {
        self.asked.is_none()
    }

    // What is told of an event that ends no command.
    fn outcome(&self) -> Outcome
        ensures { result ≡ outcome_after self.now.asked }
    {
        match self.asked {
            Some(asked) => Outcome::Waiting(asked.req),
            None => Outcome::Idle,
        }
    }

    // Makes the command the outstanding one, under the next request number.
    fn ask(&mut self, command: &Command<'_>, moment: u64) -> u16
        requires { MaySubmit (view command.now) }
        ensures req { result ≡ next_req self.old.last_req }
        ensures state { self.new ≡ with_command self.old (view command.now) moment }
    {
        let req = steps::next_req(self.last_req);
        let code = steps::code_of(command);
        let flags = CommandFlags::ACKNOWLEDGE.bits();
        let head = CommandHead { flags, code, req };
        let len = write_command(&mut self.message, head, command);
        self.last_req = req;
        self.asked = Some(Sending {
            code,
            req,
            len,
            sends: 1,
            sent: moment,
            limit: u128::from(self.limit),
            waits: true,
        });
        req
    }

    /// Submits a READREG, WRITEREG, READMEM or WRITEMEM command at a moment in milliseconds, which then
    /// waits to be sent. The answer is its request number, or that of the command which is outstanding;
    /// then nothing changes.
    pub fn submit(&mut self, command: &Command<'_>, moment: u64) -> Result<u16, u16>
        requires { MaySubmit (view command.now) }
        ensures answer { result ≡ submit_answer self.old.asked self.old.last_req }
        ensures state { self.new ≡ step self.old (submits (view command.now) moment) }
    {
        match self.asked {
            Some(asked) => Err(asked.req),
            None => Ok(self.ask(command, moment)),
        }
    }

    // A tick while no command is outstanding: a heartbeat is submitted where one is due.
    fn tick_idle(&mut self, moment: u64) -> Outcome
        requires { IsIdle self.old }
        ensures outcome { result ≡ (ticked self.old moment).outcome }
        ensures state { self.new ≡ step self.old (ticks moment) }
    {
        if !steps::is_heartbeat_due(self.ended, moment) {
            return Outcome::Idle;
        }
        let address = CCP.to_be_bytes();
        Outcome::Waiting(self.ask(&Command::ReadReg(&address), moment))
    }

    /// Time has come to this moment, in milliseconds: a command whose last send has no answer within its
    /// limit waits to be sent again, or ends after the third; an idle client may submit a heartbeat.
    pub fn tick(&mut self, moment: u64) -> Outcome
        ensures outcome { result ≡ (ticked self.old moment).outcome }
        ensures state { self.new ≡ step self.old (ticks moment) }
    {
        let Some(asked) = self.asked else {
            return self.tick_idle(moment);
        };
        if !steps::is_late(&asked, moment) {
            return Outcome::Waiting(asked.req);
        }
        if asked.sends < SENDS {
            self.asked = Some(steps::sent_again(self.limit, asked, moment));
            return Outcome::Waiting(asked.req);
        }
        self.asked = None;
        Outcome::NoAnswer(asked.req)
    }

    /// The bytes that are to be sent now, if any; they wait no longer.
    pub fn to_send(&mut self) -> Option<&[u8]>
        ensures* taken { sem 𝓛 (EndsTaken self.entry) }
        ensures bytes { option_copied result ≡ to_send self.old.asked }
    {
        let Some(asked) = self.asked else {
            return None;
        };
        if !asked.waits {
            return None;
        }
        self.asked = Some(Sending {
            waits: false,
            ..asked
        });
        Some(&self.message[..asked.len])
    }

    // Ends the outstanding command with the acknowledge that answers it.
    fn end(&mut self, ack: &Ack<'_>, moment: u64) -> Outcome
        requires { length (ack_view ack.now).body ≤ MAX_BODY_SIZE }
        ensures outcome { result ≡ (ended_by self.old (ack_view ack.now) moment).outcome }
        ensures state { self.new ≡ (ended_by self.old (ack_view ack.now) moment).client }
    {
        let len = ack.body.len();
        self.body[..len].copy_from_slice(ack.body);
        self.body_len = len;
        self.asked = None;
        self.ended = Some(moment);
        self.gone = self.gone.saturating_add(u64::from(steps::tells_zero(ack)));
        steps::ack_outcome(ack.status)
    }

    /// Takes in bytes that arrived on the control channel at a moment in milliseconds: the acknowledge
    /// of the outstanding command ends it, and PENDING gives its last send more time. Others are ignored.
    pub fn receive(&mut self, bytes: &[u8], moment: u64) -> Outcome
        ensures outcome { result ≡ (received self.old bytes.now moment).outcome }
        ensures state { self.new ≡ step self.old (receives bytes.now moment) }
    {
        let Ok(ack) = parse_ack(bytes) else {
            return self.outcome();
        };
        let Some(asked) = self.asked else {
            return Outcome::Idle;
        };
        if steps::is_match(&asked, &ack) {
            return self.end(&ack, moment);
        }
        if ack.req == asked.req
            && let Some(time) = read_pending(&ack)
        {
            self.asked = Some(steps::longer(asked, time));
        }
        Outcome::Waiting(asked.req)
    }

    /// How many reads of one register told 0. In a run that reads no register but CCP, as its heartbeats do, these
    /// found that the camera had given control away.
    pub fn gone(&self) -> u64 {
        self.gone
    }

    /// The body of the last acknowledge that ended a command; empty before the first.
    pub fn body(&self) -> &[u8]
        ensures { result.now ≡ self.now.body }
    {
        &self.body[..self.body_len]
    }

    /// The value that the last acknowledge which ended a command told, if its body has the 4 bytes of a
    /// register: that of a READREG of one register, as a heartbeat is.
    pub fn value(&self) -> Option<u32>
        ensures { result ≡ value_of self.now.body }
    {
        let body = self.body();
        if body.len() == 4 {
            return Some(BigEndian::read_u32(body));
        }
        None
    }
}
