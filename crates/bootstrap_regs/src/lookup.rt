ghost use Rattle.std.specs.Prelude.{◌≡◌};
ghost use Rattle.bootstrap_regs.specs.Registers.{covers, register_at, word_in, initial_at};

use crate::table::{Initial, REGISTERS, Register};
use wire_fields::u32_at;

// Whether one of the register's bytes has this address.
fn covers(register: &Register, address: u32) -> bool
    ensures { result ≡ covers register.now address }
{
    register.address <= address && (address - register.address) / 4 < register.words
}

// The register of the table to which the byte with this address belongs.
#[tactic(auto, unfolding(crate::specs::Registers::register_at))]
pub(crate) fn register_at(address: u32) -> Option<Register>
    ensures { result ≡ register_at address }
{
    REGISTERS
        .iter()
        .copied()
        .find(|register| covers(register, address))
}

// What the word of a register holds at first that comes after so many others of it.
fn word_in(initial: Initial, place: u32) -> u32
    ensures { result ≡ word_in initial place }
{
    match initial {
        Initial::Number(number) => if place == 0 { number } else { 0 },
        Initial::Text(text) => if place < 2 {
            u32_at(&text, 4 * place as usize)
        } else {
            0
        },
    }
}

/// What the word at an address holds before anything was written to it.
pub fn initial_at(address: u32) -> u32
    ensures { result ≡ initial_at address }
{
    match register_at(address) {
        Some(register) => word_in(
            register.initial,
            address.saturating_sub(register.address) / 4,
        ),
        None => 0,
    }
}
