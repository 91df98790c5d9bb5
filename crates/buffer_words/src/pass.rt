//! A pass: what a thread acts on the board with.
ghost use Rattle.std.specs.Prelude.{◌≡◌, ◌≤◌, ℕ};
ghost use Rattle.board_machine.specs.Places.{times};
ghost use Rattle.buffer_words.specs.Passes.{slot_of, slot_places, IsSingle};
ghost use Rattle.buffer_words.specs.Plays.{IsFrontPlace};

use crate::words::Seat;
use arrayvec::ArrayVec;
use std::marker::Model;

/// What a thread acts on the board with: the number of its actor, the history as far as it has seen it,
/// and the places in its hands with their buffers.
#[derive(Drop)]
pub struct Pass {
    pub(crate) seat: Seat,
    // The places whose slots the seat has, in the seat's order.
    pub(crate) held: ArrayVec<u8, 15>,
}

impl Model for Pass {
    ghost use Rattle.buffer_words.specs.Passes.{Token, IsPass};

    ghost Value = { Token };

    ghost view = { λ p. record { table = p.seat.table_id; number = p.seat.me.0.number; seen = p.seat.me.0.seen; slots = p.seat.me.1 } };

    ghost invariant = { λ p. IsPass p.held.items p.seat.me.0 p.seat.me.1 };
}

/// Turns the slots until that of the place is the one that was taken last.
pub(crate) fn bring(seat: &mut Seat, held: &mut ArrayVec<u8, 15>, place: u8)
    requires order { held.old.items ≡ slot_places seat.old.me.1 }
    requires single { IsSingle seat.old.me.1 }
    requires has { 1 ≤ times place (slot_places seat.old.me.1) }
    ensures order { held.new.items ≡ slot_places seat.new.me.1 }
    ensures table { seat.new.table_id ≡ seat.old.table_id }
    ensures view { seat.new.me.0 ≡ seat.old.me.0 }
    ensures times { (i : ℕ) → times i (slot_places seat.new.me.1) ≡ times i (slot_places seat.old.me.1) }
    ensures slots { (i : ℕ) → slot_of i seat.new.me.1 ≡ slot_of i seat.old.me.1 }
    ensures front { IsFrontPlace seat.new.me place }
{
    while held[0] != place {
        let first = held.remove(0);
        held.push(first);
        seat.turn();
    }
}
