//! The kinds of step on the kill mark and on the run word.
ghost use Rattle.buffer_words.specs.Marks.{looked_run, started, stopped, posted, unposted};

use crate::view::View;
use atomic_table::Play;
use gev_types::Buf;

pub(crate) struct LookRun;

impl Play<Option<Buf>, View> for LookRun {
    ghost then = { looked_run };
}

pub(crate) struct Start;

impl Play<Option<Buf>, View> for Start {
    ghost then = { started };
}

pub(crate) struct Stop;

impl Play<Option<Buf>, View> for Stop {
    ghost then = { stopped };
}

pub(crate) struct Post;

impl Play<Option<Buf>, View> for Post {
    ghost then = { posted };
}

pub(crate) struct Unpost;

impl Play<Option<Buf>, View> for Unpost {
    ghost then = { unposted };
}
