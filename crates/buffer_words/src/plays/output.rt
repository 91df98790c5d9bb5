//! The kinds of step on the output's word, each named for what it does.
ghost use Rattle.buffer_words.specs.Output.{looked_out, closed_out, swept_out, saw_first, took, saw_mark, filled};

use crate::plays::Asked;
use crate::view::View;
use atomic_table::Play;
use gev_types::Buf;
use std::marker::PhantomData;

pub(crate) struct LookOut;

impl Play<Option<Buf>, View> for LookOut {
    ghost then = { looked_out };
}

pub(crate) struct CloseOut;

impl Play<Option<Buf>, View> for CloseOut {
    ghost then = { closed_out };
}

pub(crate) struct SweepOut;

impl Play<Option<Buf>, View> for SweepOut {
    ghost then = { swept_out };
}

pub(crate) struct SeeFirst;

impl Play<Option<Buf>, View> for SeeFirst {
    ghost then = { saw_first };
}

pub(crate) struct TakeFirst;

impl Play<Option<Buf>, View> for TakeFirst {
    ghost then = { took };
}

pub(crate) struct SeeMark<J: Asked>(PhantomData<J>);

impl<J: Asked> Play<Option<Buf>, View> for SeeMark<J> {
    ghost then = { saw_mark J.number };
}

pub(crate) struct Fill<J: Asked>(PhantomData<J>);

impl<J: Asked> Play<Option<Buf>, View> for Fill<J> {
    ghost then = { filled J.number };
}
