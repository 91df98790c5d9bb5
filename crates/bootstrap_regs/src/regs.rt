ghost use Rattle.std.specs.Prelude.{◌≡◌, ℕ, List, [], ◌∷◌, take, flat_map, OnOk, OnErr, IfOk, None};
ghost use Rattle.byteorder.specs.Endian.{big_bytes};
ghost use Rattle.bootstrap_regs.specs.Registers.{address_refusal};
ghost use Rattle.bootstrap_regs.specs.Words.{word_at, with_word, released_words, answer, write_refusal, after_write};
ghost use Rattle.bootstrap_regs.specs.Changes.{Change, written, released, value_after, Holds};

use crate::addresses::{CCP, DISCOVERY_WORDS, SCP0, WORDS};
use crate::lookup::initial_at;
use crate::refusals::{address_refusal, value_refusal};
use byteorder::{BigEndian, ByteOrder};
use gvcp_wire::Status;
use std::marker::Model;

/// The words of the register space. Contracts see the list of them.
#[derive(Drop)]
pub struct Regs {
    words: [u32; WORDS],
}

impl Model for Regs {
    ghost use Rattle.std.specs.Prelude.{List, ℕ};

    ghost Value = { List ℕ };

    ghost view = { λ r. r.words };
}

// What the words hold before anything was written.
fn first_words() -> [u32; WORDS]
    ensures { Holds result [] }
{
    let mut words = [0; WORDS];
    for i in 0..WORDS {
        words[i] = initial_at(4 * i as u32);
    }
    words
}

impl Regs {
    /// The registers with their first values.
    pub fn new() -> Regs
        ensures { Holds result [] }
    {
        Regs {
            words: first_words(),
        }
    }

    /// The word at an address. It is refused with BAD_ALIGNMENT where the address isn't a multiple of
    /// 4, and else with INVALID_ADDRESS where there is no such word.
    pub fn read(&self, address: u32) -> Result<u32, u16>
        ensures answer { result ≡ answer (address_refusal address) (word_at self.now address) }
        ensures latest { IfOk result (λ value. (changes : List Change) → Holds self.now changes → value ≡ value_after changes address) }
    {
        match address_refusal(address) {
            Some(status) => Err(status.code()),
            None => Ok(self.words[(address / 4) as usize]),
        }
    }

    /// Writes a word. It is refused as a read is, and else with WRITE_PROTECT where the register can
    /// only be read, and else with INVALID_PARAMETER where it doesn't take the value; then nothing
    /// changed.
    pub fn write(&mut self, address: u32, value: u32) -> Result<(), u16>
        ensures answer { result ≡ answer (write_refusal address value) tt }
        ensures words { self.new ≡ after_write self.old address value }
        ensures done { OnOk result ((changes : List Change) → Holds self.old changes → Holds self.new (written address value ∷ changes)) }
        ensures refused { OnErr result (self.new ≡ self.old) }
    {
        let refusal = address_refusal(address).or(value_refusal(address, value));
        if let Some(status) = refusal {
            return Err(status.code());
        }
        self.put(address, value);
        Ok(())
    }

    /// Writes a word without a test of the register and the value.
    pub fn put(&mut self, address: u32, value: u32)
        requires { address_refusal address ≡ None }
        ensures words { self.new ≡ with_word self.old address value }
        ensures done { (changes : List Change) → Holds self.old changes → Holds self.new (written address value ∷ changes) }
    {
        self.words[(address / 4) as usize] = value;
    }

    /// Makes the control channel privilege and the host port of the stream 0, as a release of control
    /// does.
    pub fn release(&mut self)
        ensures words { self.new ≡ released_words self.old }
        ensures done { (changes : List Change) → Holds self.old changes → Holds self.new (released ∷ changes) }
    {
        self.put(CCP, 0);
        self.put(SCP0, 0);
    }

    /// Writes the body of DISCOVERY's acknowledge (GigE Vision 2.0, DISCOVERY_ACK): the words from the
    /// first one to the user-defined name, 248 bytes.
    pub fn discovery(&self, out: &mut [u8; 248])
        ensures { out.new ≡ flat_map (big_bytes 4) (take DISCOVERY_WORDS self.now) }
    {
        BigEndian::write_u32_into(&self.words[..DISCOVERY_WORDS], out);
    }
}
