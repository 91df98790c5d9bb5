//! The kinds of step on a place's word and on the pool's, each named for what it does.
ghost use Rattle.std.specs.Prelude.{ℕ};
ghost use Rattle.buffer_words.specs.Plays.{looked, reading, sought, grabbed, vacancy, enrolled, laid, vacated, bore, stays_idle, newborn, joining, spent, ends, looked_pool, pooled, saw_pool, claimed};
ghost use Rattle.buffer_words.specs.Swept.{swept_pool};

pub(crate) mod marks;
pub(crate) mod output;

use crate::view::View;
use atomic_table::{Join, Play, Split};
use gev_types::Buf;
use std::marker::{Brand, PhantomData};

/// What a step is made for: the generation of a grab, the size of an enrol, the place of a pool or a claim.
pub(crate) trait Asked {
    ghost number: { ℕ };
}

impl Asked for Brand {
    ghost number = { 0 };
}

pub(crate) struct Look;

impl Play<Option<Buf>, View> for Look {
    ghost then = { looked };
}

pub(crate) struct Read;

impl Play<Option<Buf>, View> for Read {
    ghost then = { reading };
}

pub(crate) struct Seek<J: Asked>(PhantomData<J>);

impl<J: Asked> Play<Option<Buf>, View> for Seek<J> {
    ghost then = { sought J.number };
}

pub(crate) struct Grab;

impl Play<Option<Buf>, View> for Grab {
    ghost then = { grabbed };
}

pub(crate) struct SeekVacancy<J: Asked>(PhantomData<J>);

impl<J: Asked> Play<Option<Buf>, View> for SeekVacancy<J> {
    ghost then = { vacancy J.number };
}

pub(crate) struct Enrol<J: Asked>(PhantomData<J>);

impl<J: Asked> Play<Option<Buf>, View> for Enrol<J> {
    ghost then = { enrolled J.number };
}

pub(crate) struct Lay;

impl Play<Option<Buf>, View> for Lay {
    ghost then = { laid };
}

pub(crate) struct Vacate;

impl Play<Option<Buf>, View> for Vacate {
    ghost then = { vacated };
}

pub(crate) struct Bear;

impl Play<Option<Buf>, View> for Bear {
    ghost then = { bore };
}

pub(crate) struct Part;

impl Split<View> for Part {
    ghost left = { stays_idle };

    ghost right = { newborn };
}

pub(crate) struct Meet;

impl Join<View> for Meet {
    ghost both = { joining };

    ghost spent = { spent };
}

pub(crate) struct End;

impl Play<Option<Buf>, View> for End {
    ghost then = { ends };
}

pub(crate) struct LookPool;

impl Play<Option<Buf>, View> for LookPool {
    ghost then = { looked_pool };
}

pub(crate) struct Pool<J: Asked>(PhantomData<J>);

impl<J: Asked> Play<Option<Buf>, View> for Pool<J> {
    ghost then = { pooled J.number };
}

pub(crate) struct SeePool;

impl Play<Option<Buf>, View> for SeePool {
    ghost then = { saw_pool };
}

pub(crate) struct Claim<J: Asked>(PhantomData<J>);

impl<J: Asked> Play<Option<Buf>, View> for Claim<J> {
    ghost then = { claimed J.number };
}

pub(crate) struct SweepPool;

impl Play<Option<Buf>, View> for SweepPool {
    ghost then = { swept_pool };
}
