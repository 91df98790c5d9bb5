//! Register and memory commands that are executed (GigE Vision 2.0, READREG, WRITEREG, READMEM and
//! WRITEMEM).

use super::Camera;
use crate::bodies::{has_read, has_written, is_memory_size, put_word, refused};
use crate::done::Done;
use gev_types::Peer;
use gvcp_wire::codes::MAX_BODY_SIZE;
use gvcp_wire::{Command, Status};

impl Camera {
    ghost use Rattle.std.specs.Prelude.{◌≡◌, ◌/◌, ◌≤◌, [], length};
    ghost use Rattle.gvcp_wire.specs.Messages.{view};
    ghost use Rattle.camera_machine.specs.Access.{read_all, write_all, addresses_in, pairs_in, words_in};
    ghost use Rattle.camera_machine.specs.Commands.{read_answer, write_answer, read_memory};
    ghost use Rattle.camera_sim.specs.Doing.{execution_of, HasRoom, IsDone};

    fn read_registers(&self, peer: Peer, addresses: &[u8], body: &mut [u8; MAX_BODY_SIZE]) -> Done
        requires { length addresses.now ≤ MAX_BODY_SIZE }
        ensures { IsDone result self.now body.new
            (read_answer self.now [] (read_all self.now peer (addresses_in (length addresses.now / 4) addresses.now))) }
    {
        match self.read_list(peer, addresses, body) {
            None => has_read(4 * (addresses.len() / 4)),
            Some(status) => refused(status),
        }
    }

    fn read_memory(
        &self,
        peer: Peer,
        address: u32,
        count: u16,
        body: &mut [u8; MAX_BODY_SIZE],
    ) -> Done
        ensures { IsDone result self.now body.new (read_memory self.now peer address count) }
    {
        if address % 4 != 0 {
            return refused(Status::BadAlignment);
        }
        if !is_memory_size(count) {
            return refused(Status::InvalidParameter);
        }
        put_word(body, 0, address);
        let words = usize::from(count) / 4;
        match self.read_words(peer, address, words, body) {
            None => has_read(4 + 4 * words),
            Some(status) => refused(status),
        }
    }

    fn write_registers(
        &mut self,
        peer: Peer,
        pairs: &[u8],
        moment: u64,
        body: &mut [u8; MAX_BODY_SIZE],
    ) -> Done
        requires { length pairs.now ≤ MAX_BODY_SIZE }
        ensures { IsDone result self.new body.new
            (write_answer 1 (write_all self.old peer moment (pairs_in (length pairs.now / 8) pairs.now))) }
    {
        let writes = self.write_pairs(peer, pairs, moment);
        has_written(writes, 1, body)
    }

    fn write_memory(
        &mut self,
        peer: Peer,
        address: u32,
        bytes: &[u8],
        moment: u64,
        body: &mut [u8; MAX_BODY_SIZE],
    ) -> Done
        requires { length bytes.now ≤ MAX_BODY_SIZE }
        ensures { IsDone result self.new body.new
            (write_answer 4 (write_all self.old peer moment (words_in (length bytes.now / 4) address bytes.now))) }
    {
        let writes = self.write_words(peer, address, bytes, moment);
        has_written(writes, 4, body)
    }

    // Executes a register or memory command of a peer at a moment. The body of its acknowledge goes to the
    // front of `body`.
    pub(super) fn execute(
        &mut self,
        peer: Peer,
        command: &Command<'_>,
        moment: u64,
        body: &mut [u8; MAX_BODY_SIZE],
    ) -> Done
        requires { HasRoom (view command.now) }
        ensures { IsDone result self.new body.new (execution_of self.old peer moment (view command.now)) }
    {
        match *command {
            Command::ReadReg(addresses) => self.read_registers(peer, addresses, body),
            Command::WriteReg(pairs) => self.write_registers(peer, pairs, moment, body),
            Command::ReadMem { address, count } => self.read_memory(peer, address, count, body),
            Command::WriteMem { address, bytes } => {
                self.write_memory(peer, address, bytes, moment, body)
            }
            Command::Other { .. } => refused(Status::NotImplemented),
        }
    }
}
