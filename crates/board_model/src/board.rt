ghost use Rattle.std.specs.Prelude.{◌≡◌, IfOk, replicate};
ghost use Rattle.gev_types.specs.Limits.{place_count};
ghost use Rattle.board_machine.specs.Machine.{empty_board};
ghost use Rattle.board_machine.specs.Owners.{IsOwned, IsCounted};
ghost use Rattle.board_model.specs.Plain.{nothing, AreKept, AreOfWordSize};

use crate::hands::Hands;
use crate::places::{Places, ROOM};
use arrayvec::ArrayVec;
use gentl_types::{State, Word};
use gev_types::{Buf, NoMemory, PLACES};
use std::alloc::Global;
use std::marker::Model;

/// The board of one stream, with its buffers: ownership words, input pool, output queue, and the places
/// in each actor's hands, as GenTL's data stream module has them for its announced buffers.
///
/// Contracts see the board machine's state, and for each place that is neither vacant nor lifted the
/// bytes and the record of its buffer. Only `new` takes memory.
#[derive(Drop)]
pub struct PlainBoard {
    pub(crate) words: [Word; ROOM],
    pub(crate) pool: Places,
    pub(crate) out: ArrayVec<u8, ROOM>,
    pub(crate) hands: Hands,
    pub(crate) bufs: Vec<Option<Buf>>,
    pub(crate) closed: bool,
    pub(crate) kill: bool,
    pub(crate) run: u8,
}

impl Model for PlainBoard {
    ghost use Rattle.board_model.specs.Plain.{PlainState, IsPlain, shown};

    ghost Value = { PlainState };

    ghost view = { λ p. record { board = shown p.words p.pool p.out.items p.bufs.items p.hands p.closed p.kill p.run; contents = p.bufs.items } };

    ghost invariant = { λ p. IsPlain (shown p.words p.pool p.out.items p.bufs.items p.hands p.closed p.kill p.run) p.bufs.items };
}

impl PlainBoard {
    /// A board with vacant places and actor 0, which reserves all the memory that it needs.
    pub fn new(alloc: Global) -> Result<PlainBoard, NoMemory>
        ensures board { IfOk result (λ b. b.board ≡ empty_board) }
        ensures contents { IfOk result (λ b. b.contents ≡ replicate place_count nothing) }
    {
        let mut bufs = Vec::with_capacity(alloc, ROOM)?;
        for _place in 0..PLACES {
            bufs.push(None)?;
        }
        let vacant = Word {
            state: State::Vacant,
            size: 0,
            generation: 0,
        };
        Ok(PlainBoard {
            words: [vacant; ROOM],
            pool: Places::new(),
            out: ArrayVec::new(),
            hands: Hands::new(),
            bufs,
            closed: false,
            kill: false,
            run: 0,
        })
    }

    /// Does nothing. Its clauses are what every board keeps: who owns each buffer, at which places
    /// buffers lie, and that each has its word's size.
    pub fn owned(&self)
        ensures owned { IsOwned self.now.board }
        ensures counted { IsCounted self.now.board }
        ensures kept { AreKept self.now }
        ensures sized { AreOfWordSize self.now }
    {
        let _run = &self.run;
    }
}
