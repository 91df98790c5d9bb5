mod access;
mod execute;
mod fetch;
mod obey;
mod words;

use crate::acknowledge::MESSAGE_SIZE;
use crate::kept::Kept;
use crate::received::Received;
use bootstrap_regs::Regs;
use bootstrap_regs::addresses::{HEARTBEAT_TIMEOUT, SCDA0, SCP0, SCPS0};
use camera_machine::laws::new_words_are_initial;
use camera_stream::{CameraStream, PACKET_ROOM};
use control_privilege::Privilege;
use gev_frames::camera_frame;
use gev_types::{NoMemory, Peer, Shape};
use gvcp_wire::{ControlError, parse_command};
use resend_store::SentFrame;
use std::alloc::Global;
use std::marker::Model;

// The headers of IP, UDP and the stream, which a packet's size counts.
const HEADER_BYTES: u32 = 48;

// The register of the camera's own address (GigE Vision 2.0, current IP address).
const CURRENT_ADDRESS: u32 = 0x0024;

/// A simulated camera with one stream channel.
///
/// Contracts see the state of the machine that the crate `camera_machine` defines. Only `new`, `new_at`
/// and `frame` take memory, for the list of held frames and for the bytes of one image.
#[derive(Drop)]
pub struct Camera {
    seed: u64,
    shape: Shape,
    regs: Regs,
    privilege: Privilege,
    kept: Option<Kept>,
    command: [u8; MESSAGE_SIZE],
    answer: [u8; MESSAGE_SIZE],
    stream: CameraStream,
    executed: u64,
    short: bool,
}

impl Model for Camera {
    ghost use Rattle.camera_machine.specs.Camera.{Camera as Machine};
    ghost use Rattle.camera_sim.specs.Seen.{kept_of, IsCamera};

    ghost Value = { Machine };

    ghost view = { λ c. record {
      seed = c.seed;
      shape = c.shape;
      words = c.regs;
      holder = c.privilege;
      kept = kept_of c.kept c.command c.answer;
      shelf = c.stream.shelf;
      waiting = c.stream.waiting;
      executed = c.executed;
      short = c.short;
    } };

    ghost invariant = { λ c. IsCamera c.shape c.short c.regs c.stream.waiting c.kept c.command c.answer };
}

impl Camera {
    ghost use Rattle.std.specs.Prelude.{◌≡◌, ◌↔◌, ◌+◌, ◌-◌, ◌^◌, ◌<◌, ◌≤◌, Some, None, [], IsTrue, IfOk, IfSome, IfNone, OnOk, OnErr, option_map, if◌then◌else◌};
    ghost use Rattle.gev_types.specs.FrameSize.{IsImageSize};
    ghost use Rattle.gev_frames.specs.Frames.{shape_size};
    ghost use Rattle.bootstrap_regs.specs.Registers.{address_refusal};
    ghost use Rattle.bootstrap_regs.specs.Words.{word_at};
    ghost use Rattle.control_privilege.specs.Control.{is_primary};
    ghost use Rattle.camera_machine.specs.Camera.{new_camera, standing_at, is_open, stream_peer, released};
    ghost use Rattle.camera_machine.specs.Stream.{payload_size_of, waiting_count, first_waiting};
    ghost use Rattle.camera_machine.specs.Commands.{renewed, commanded};
    ghost use Rattle.camera_machine.specs.Events.{step, command, tick, make_frame, next_packet, set_short};
    ghost use Rattle.camera_stream.specs.Writing.{packet_size, with_front};
    ghost use Rattle.camera_sim.specs.Seen.{AreRegisters};
    ghost use Rattle.camera_sim.specs.Obeying.{ack_of, FitsMessage};

    /// A camera whose frames are made of this seed and shape, and which can send the packets of the
    /// last so many frames again.
    pub fn new(alloc: Global, seed: u64, shape: Shape, frames: u8) -> Result<Camera, NoMemory>
        // `frame_size` of the shape without padding is Some.
        requires image { IsImageSize (shape_size shape) }
        requires some { 1 ≤ frames }
        requires few { frames ≤ 8 }
        ensures { IfOk result (λ camera. camera ≡ new_camera seed shape frames) }
    {
        new_words_are_initial();
        let stream = CameraStream::new(alloc, frames)?;
        Ok(Camera {
            seed,
            shape,
            regs: Regs::new(),
            privilege: Privilege::new(),
            kept: None,
            command: [0; MESSAGE_SIZE],
            answer: [0; MESSAGE_SIZE],
            stream,
            executed: 0,
            short: false,
        })
    }

    /// The same of a camera whose register of its own address tells this one.
    pub fn new_at(
        alloc: Global,
        address: u32,
        seed: u64,
        shape: Shape,
        frames: u8,
    ) -> Result<Camera, NoMemory>
        requires image { IsImageSize (shape_size shape) }
        requires some { 1 ≤ frames }
        requires few { frames ≤ 8 }
        ensures { IfOk result (λ camera. camera ≡ standing_at address (new_camera seed shape frames)) }
    {
        let mut camera = Camera::new(alloc, seed, shape, frames)?;
        camera.stand_at(address);
        Ok(camera)
    }

    // Lets the camera tell this as its own address.
    fn stand_at(&mut self, address: u32)
        ensures { self.new ≡ standing_at address self.old }
    {
        self.regs.put(CURRENT_ADDRESS, address);
    }

    // The word at an address where there is one.
    fn word(&self, address: u32) -> u32
        requires { address_refusal address ≡ None }
        ensures value { result ≡ word_at self.now.words address }
        ensures registers { AreRegisters self.now.words }
    {
        match self.regs.read(address) {
            Ok(value) => value,
            Err(_status) => unreachable!(),
        }
    }

    // Whether the stream channel is open.
    fn is_open(&self) -> bool
        ensures { result ≡ is_open self.now }
    {
        self.word(SCP0) != 0
    }

    // Where the stream's packets go.
    fn stream_peer(&self) -> Peer
        ensures { result ≡ stream_peer self.now }
    {
        Peer {
            address: self.word(SCDA0),
            port: self.word(SCP0) as u16,
        }
    }

    // How many bytes of an image a packet carries now.
    fn payload_size(&self) -> u32
        ensures value { result ≡ payload_size_of self.now }
        ensures least { 528 ≤ result }
        ensures most { result ≤ 8952 }
    {
        self.word(SCPS0) % 0x1_0000 - HEADER_BYTES
    }

    // Whether this peer has control.
    fn is_primary(&self, peer: Peer) -> bool
        ensures { result ≡ is_primary self.now.holder peer }
    {
        match self.privilege.primary() {
            Some(primary) => primary == peer,
            None => false,
        }
    }

    // Releases the control.
    fn release(&mut self)
        ensures { self.new ≡ released self.old }
    {
        self.regs.release();
        self.privilege = Privilege::new();
        self.kept = None;
        self.stream.drop_waiting();
    }

    /// Time has come to this moment, in milliseconds: control is released where the heartbeat of the
    /// peer that has it has run out.
    pub fn tick(&mut self, moment: u64)
        ensures { self.new ≡ step self.old (tick moment) }
    {
        let heartbeat = self.word(HEARTBEAT_TIMEOUT);
        if self.privilege.tick(moment, heartbeat) {
            self.release();
        }
    }

    // Takes note of the moment of a command.
    fn renew(&mut self, peer: Peer, moment: u64)
        ensures { self.new ≡ renewed self.old peer moment }
    {
        self.privilege.renew(peer, moment);
    }

    /// A datagram of a peer reaches the control port at a moment, in milliseconds (GigE Vision 2.0,
    /// GVCP). Its acknowledge is written to the front of `out`. The answer is the acknowledge's length
    /// in bytes, and None exactly where none goes out. Takes no memory.
    pub fn command(
        &mut self,
        peer: Peer,
        bytes: &[u8],
        moment: u64,
        out: &mut [u8; MESSAGE_SIZE],
    ) -> Option<usize>
        ensures state { self.new ≡ step self.old (command peer bytes.now moment) }
        ensures ack { ack_of result out.new ≡ (commanded self.old peer bytes.now moment).ack }
        ensures fits { FitsMessage result }
    {
        self.tick(moment);
        match parse_command(bytes) {
            Ok((head, command)) => {
                self.renew(peer, moment);
                self.obey(
                    &Received {
                        peer,
                        bytes,
                        moment,
                        head,
                        command: Some(command),
                    },
                    out,
                )
            }
            Err(ControlError::Form(head)) => {
                self.renew(peer, moment);
                self.obey(
                    &Received {
                        peer,
                        bytes,
                        moment,
                        head,
                        command: None,
                    },
                    out,
                )
            }
            Err(ControlError::Short(_)) => None,
            Err(ControlError::Key(_)) => None,
            Err(ControlError::ZeroReq) => None,
            Err(ControlError::Length { .. }) => None,
        }
    }

    /// The frames that are made from here on are short ones, or whole ones again. While short, block b has
    /// b modulo 8 lines fewer than the shape, which their leaders go on announcing. What is stored or
    /// waits stays as it was made.
    pub fn set_short(&mut self, short: bool)
        requires lines { 8 ≤ self.old.shape.size_y }
        ensures { self.new ≡ step self.old (set_short short) }
    {
        self.short = short;
    }

    /// Makes the next frame, and lets its packets wait. The answer is its block id, and None exactly
    /// where the stream channel is closed; then nothing is made. Without memory for its bytes nothing
    /// changes.
    pub fn frame(&mut self, alloc: Global) -> Result<Option<u64>, NoMemory>
        // `is_idle`.
        requires idle { self.old.waiting ≡ [] }
        requires count { self.old.shelf.count < 2 ^ 64 - 1 }
        ensures block { IfOk result (λ block. block ≡ (if is_open self.old then Some (self.old.shelf.count + 1) else None)) }
        ensures state { OnOk result (self.new ≡ step self.old make_frame) }
        ensures no_memory { OnErr result (self.new ≡ self.old) }
    {
        if !self.is_open() {
            return Ok(None);
        }
        let block = self.stream.frame_count() + 1;
        let payload_size = self.payload_size();
        match camera_frame(alloc, self.short, self.seed, block, self.shape) {
            Ok(frame) => {
                self.stream.push_frame(SentFrame {
                    frame,
                    payload_size,
                });
                Ok(Some(block))
            }
            Err(error) => Err(error),
        }
    }

    /// Writes the packet that waits first to the front of `out`, and leaves the bytes behind it. The
    /// answer is where it goes, by the registers as they are now, and its length in bytes. None exactly
    /// where none waits.
    pub fn next_packet(&mut self, out: &mut [u8; PACKET_ROOM]) -> Option<(Peer, usize)>
        ensures size { option_map (λ sent. sent.1) result ≡ packet_size (first_waiting self.old.waiting) }
        ensures peer { IfSome result (λ sent. sent.0 ≡ stream_peer self.old) }
        ensures written { out.new ≡ with_front (first_waiting self.old.waiting) out.old }
        ensures state { self.new ≡ step self.old next_packet }
        ensures none { IfNone result (self.old.waiting ≡ []) }
        ensures fits { IfSome result (λ sent. sent.1 ≤ PACKET_ROOM) }
    {
        let peer = self.stream_peer();
        match self.stream.next_packet(out) {
            Some(len) => Some((peer, len)),
            None => None,
        }
    }

    /// Whether no packet waits.
    pub fn is_idle(&self) -> bool
        ensures { IsTrue result ↔ (self.now.waiting ≡ []) }
    {
        self.stream.is_idle()
    }

    /// How many packets wait.
    pub fn waiting_count(&self) -> usize
        ensures { result ≡ waiting_count self.now }
    {
        self.stream.waiting_count()
    }

    /// How many frames were made since the stream channel opened, which is the last block id.
    pub fn frame_count(&self) -> u64
        ensures { result ≡ self.now.shelf.count }
    {
        self.stream.frame_count()
    }

    /// How many register and memory commands of the primary were executed, as far as 64 bits go.
    pub fn executed(&self) -> u64
        ensures { result ≡ self.now.executed }
    {
        self.executed
    }
}
