//! One word that a peer reads or writes (GigE Vision 2.0, READREG and WRITEREG).

ghost use Rattle.std.specs.Prelude.{◌≡◌};
ghost use Rattle.camera_machine.specs.Access.{denied_unless};

use super::Camera;
use crate::bodies::put_word;
use bootstrap_regs::addresses::{CCP, SCP0};
use bootstrap_regs::{address_refusal, value_refusal};
use gev_types::Peer;
use gvcp_wire::Status;
use gvcp_wire::codes::MAX_BODY_SIZE;

fn denied_unless(allowed: bool) -> Option<Status>
    ensures { result ≡ denied_unless allowed }
{
    (!allowed).then_some(Status::AccessDenied)
}

impl Camera {
    ghost use Rattle.std.specs.Prelude.{◌≡◌, ◌≢◌, ◌+◌, ◌<◌, ◌≤◌, ◌++◌, None, take};
    ghost use Rattle.byteorder.specs.Endian.{big_bytes};
    ghost use Rattle.bootstrap_regs.specs.Addresses.{CCP, SCP0, END};
    ghost use Rattle.bootstrap_regs.specs.Registers.{address_refusal, value_refusal};
    ghost use Rattle.bootstrap_regs.specs.Words.{word_at, with_word};
    ghost use Rattle.camera_machine.specs.Access.{read_refusal, refusal_of, with_port, with_privilege, written};
    ghost use Rattle.camera_sim.specs.Words.{unless_refused};

    // Why a peer can't read the word at an address.
    fn read_refusal(&self, peer: Peer, address: u32) -> Option<Status>
        ensures { result ≡ read_refusal self.now peer address }
    {
        address_refusal(address).or(denied_unless(self.privilege.may_read(peer)))
    }

    // Writes the word at an address to a place of `out`. The answer is why the peer can't read it.
    pub(super) fn read_word(
        &self,
        peer: Peer,
        address: u32,
        out: &mut [u8; MAX_BODY_SIZE],
        place: usize,
    ) -> Option<Status>
        requires { place + 4 ≤ MAX_BODY_SIZE }
        ensures refusal { result ≡ read_refusal self.now peer address }
        ensures read { result ≡ None → take (place + 4) out.new ≡ take place out.old ++ big_bytes 4 (word_at self.now.words address) }
        ensures inside { result ≡ None → address < END }
    {
        match self.read_refusal(peer, address) {
            Some(status) => Some(status),
            None => {
                put_word(out, place, self.word(address));
                None
            }
        }
    }

    // Why a peer can't write a value to an address.
    fn write_refusal(&self, peer: Peer, address: u32, value: u32) -> Option<Status>
        ensures { result ≡ refusal_of self.now peer (record { address = address; value = value }) }
    {
        let may_write = self.privilege.may_write(peer, address == CCP);
        address_refusal(address).or(denied_unless(may_write).or(value_refusal(address, value)))
    }

    // A write to the control channel privilege.
    fn put_privilege(&mut self, peer: Peer, value: u32, moment: u64)
        requires { refusal_of self.old peer (record { address = CCP; value = value }) ≡ None }
        ensures { self.new ≡ with_privilege self.old peer moment value }
    {
        if value == 0 {
            self.release();
            return;
        }
        self.regs.put(CCP, value);
        self.privilege.set(peer, value, moment);
    }

    // A write to the host port of the stream channel.
    fn put_port(&mut self, value: u32)
        requires { value_refusal SCP0 value ≡ None }
        ensures { self.new ≡ with_port self.old value }
    {
        let was_open = self.is_open();
        self.regs.put(SCP0, value);
        if value == 0 {
            self.stream.drop_waiting();
            return;
        }
        if !was_open {
            self.stream.forget();
        }
    }

    // A write to any other word.
    fn put_other(&mut self, address: u32, value: u32)
        requires address { address_refusal address ≡ None }
        requires value { value_refusal address value ≡ None }
        requires other { address ≢ SCP0 }
        ensures { self.new ≡ record self.old { words = with_word self.old.words address value } }
    {
        self.regs.put(address, value);
    }

    // A write that isn't refused.
    fn put(&mut self, peer: Peer, address: u32, value: u32, moment: u64)
        requires { refusal_of self.old peer (record { address = address; value = value }) ≡ None }
        ensures { self.new ≡ written self.old peer moment (record { address = address; value = value }) }
    {
        if address == CCP {
            self.put_privilege(peer, value, moment);
        } else if address == SCP0 {
            self.put_port(value);
        } else {
            self.put_other(address, value);
        }
    }

    // Writes a word of a peer's command at a moment. The answer is why it can't be written, and then
    // nothing changed.
    pub(super) fn write_word(
        &mut self,
        peer: Peer,
        address: u32,
        value: u32,
        moment: u64,
    ) -> Option<Status>
        ensures refusal { result ≡ refusal_of self.old peer (record { address = address; value = value }) }
        ensures state { self.new ≡ unless_refused result self.old (written self.old peer moment (record { address = address; value = value })) }
        ensures inside { result ≡ None → address < END }
    {
        match self.write_refusal(peer, address, value) {
            Some(status) => Some(status),
            None => {
                self.put(peer, address, value, moment);
                None
            }
        }
    }
}
