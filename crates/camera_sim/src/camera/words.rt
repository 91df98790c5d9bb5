//! Words that a peer reads or writes in order (GigE Vision 2.0, READREG, READMEM, WRITEREG and
//! WRITEMEM).

ghost use Rattle.std.specs.Prelude.{◌≡◌, ◌==◌, ◌&&◌, ◌||◌, not};
ghost use Rattle.bootstrap_regs.specs.Addresses.{CCP};

use super::Camera;
use crate::writes::Writes;
use bootstrap_regs::addresses::CCP;
use gev_types::Peer;
use gvcp_wire::Status;
use gvcp_wire::codes::MAX_BODY_SIZE;
use wire_fields::u32_at;

// Whether control was granted before, or is by a write that is done.
fn grants(has_granted: bool, address: u32, value: u32) -> bool
    ensures { result ≡ has_granted || (address == CCP) && not (value == 0) }
{
    has_granted || address == CCP && value != 0
}

impl Camera {
    ghost use Rattle.std.specs.Prelude.{◌≡◌, ◌+◌, ◌*◌, ◌/◌, ◌≤◌, [], length, take};
    ghost use Rattle.camera_machine.specs.Words.{addresses_from};
    ghost use Rattle.camera_machine.specs.Access.{read_all, write_all, addresses_in, pairs_in, words_in};
    ghost use Rattle.camera_sim.specs.Words.{after_bytes, read_as, wrote, wrote_as};

    // Reads the words at these addresses to the front of `out`. The answer is why the first that can't be
    // read can't.
    pub(super) fn read_list(
        &self,
        peer: Peer,
        addresses: &[u8],
        out: &mut [u8; MAX_BODY_SIZE],
    ) -> Option<Status>
        requires { length addresses.now ≤ MAX_BODY_SIZE }
        ensures { read_as result (take (4 * (length addresses.now / 4)) out.new)
            ≡ after_bytes [] (read_all self.now peer (addresses_in (length addresses.now / 4) addresses.now)) }
    {
        for i in 0..addresses.len() / 4 {
            let address = u32_at(addresses, 4 * i);
            match self.read_word(peer, address, out, 4 * i) {
                None => {}
                Some(status) => return Some(status),
            }
        }
        None
    }

    // Reads so many words from an address on to `out`, behind its first four bytes. The answer is why the
    // first that can't be read can't.
    pub(super) fn read_words(
        &self,
        peer: Peer,
        address: u32,
        count: usize,
        out: &mut [u8; MAX_BODY_SIZE],
    ) -> Option<Status>
        requires { 4 + 4 * count ≤ MAX_BODY_SIZE }
        ensures { read_as result (take (4 + 4 * count) out.new)
            ≡ after_bytes (take 4 out.old) (read_all self.now peer (addresses_from count address)) }
    {
        let mut next = address;
        for i in 0..count {
            match self.read_word(peer, next, out, 4 + 4 * i) {
                None => next += 4,
                Some(status) => return Some(status),
            }
        }
        None
    }

    // Writes these pairs of an address and a value at a moment.
    pub(super) fn write_pairs(&mut self, peer: Peer, pairs: &[u8], moment: u64) -> Writes
        ensures wrote { wrote_as self.new result ≡ wrote (write_all self.old peer moment (pairs_in (length pairs.now / 8) pairs.now)) }
        ensures few { result.done ≤ length pairs.now / 8 }
    {
        let mut has_granted = false;
        for i in 0..pairs.len() / 8 {
            let address = u32_at(pairs, 8 * i);
            let value = u32_at(pairs, 8 * i + 4);
            match self.write_word(peer, address, value, moment) {
                None => has_granted = grants(has_granted, address, value),
                Some(status) => {
                    return Writes {
                        done: i,
                        refusal: Some(status),
                        has_granted,
                    };
                }
            }
        }
        Writes {
            done: pairs.len() / 8,
            refusal: None,
            has_granted,
        }
    }

    // Writes these words to an address and those after it at a moment.
    pub(super) fn write_words(
        &mut self,
        peer: Peer,
        address: u32,
        bytes: &[u8],
        moment: u64,
    ) -> Writes
        ensures wrote { wrote_as self.new result ≡ wrote (write_all self.old peer moment (words_in (length bytes.now / 4) address bytes.now)) }
        ensures few { result.done ≤ length bytes.now / 4 }
    {
        let mut has_granted = false;
        let mut next = address;
        for i in 0..bytes.len() / 4 {
            let value = u32_at(bytes, 4 * i);
            match self.write_word(peer, next, value, moment) {
                None => {
                    has_granted = grants(has_granted, next, value);
                    next += 4;
                }
                Some(status) => {
                    return Writes {
                        done: i,
                        refusal: Some(status),
                        has_granted,
                    };
                }
            }
        }
        Writes {
            done: bytes.len() / 4,
            refusal: None,
            has_granted,
        }
    }
}
