ghost use Rattle.std.specs.Prelude.{◌≡◌, ◌≤◌, ◌^◌, [], Some, Ok, length, take, IfOk, IfSome};
ghost use Rattle.std.specs.Bool.{OnTrue, OnFalse};
ghost use Rattle.gev_links.specs.Links.{answer_of, failed};
ghost use Rattle.gev_links.specs.Moments.{Tells};

use crate::counting::one_more;
use crate::reception::Reception;
use gev_types::{NoMemory, Peer};
use std::alloc::Global;
use std::marker::Model;

/// The list that the receives of a link in memory are answered from, and what they gave. After the end
/// of the list nothing comes.
#[derive(Drop)]
pub(crate) struct Receptions<'a> {
    answers: &'a [Option<(&'a [u8], Peer)>],
    given: Vec<Reception<'a>>,
    // how many receives were made; None: more than are counted
    count: Option<u64>,
}

impl<'a> Model for Receptions<'a> {
    ghost use Rattle.std.specs.Prelude.{List, Option, length, vec_capacity};
    ghost use Rattle.gev_links.specs.Links.{Answer};
    ghost use Rattle.gev_links.specs.Receptions.{heard_by, IsReceiving};

    ghost Value = { Option (List Answer) };

    ghost view = { λ r. heard_by r.given.items r.count };

    ghost invariant = { λ r. IsReceiving (length r.answers.now) (length r.given.items) (vec_capacity r.given) r.count };
}

/// Puts a datagram into the front of a slice, cut to the slice, and lends what it put there.
fn put_front<'a>(bytes: &'a [u8], out: &mut [u8]) -> &'a [u8]
    ensures few { length result.now ≤ length out.old }
    ensures put { take (length result.now) out.new ≡ result.now }
{
    let size = bytes.len().min(out.len());
    let (front, _) = bytes.split_at(size);
    out[..size].copy_from_slice(front);
    front
}

impl<'a> Receptions<'a> {
    /// The list, from which no receive was answered yet.
    pub(crate) fn new(
        alloc: Global,
        answers: &'a [Option<(&'a [u8], Peer)>],
    ) -> Result<Receptions<'a>, NoMemory>
        ensures { IfOk result (λ receptions. receptions ≡ Some []) }
    {
        let given = Vec::with_capacity(alloc, answers.len())?;
        Ok(Receptions {
            answers,
            given,
            count: Some(0),
        })
    }

    /// Answers a receive by the next member of the list, cut to the slice.
    pub(crate) fn answer_into(&mut self, out: &mut [u8]) -> Option<(usize, Peer)>
        ensures count { IfSome result (λ datagram. datagram.0 ≤ length out.old) }
        ensures told { Tells self.old self.new (answer_of (Ok result) out.new) }
    {
        let Some(count) = self.count else {
            return None;
        };
        self.count = one_more(count);
        let place = self.given.len();
        if place >= self.answers.len() {
            return None;
        }
        match self.answers[place] {
            None => {
                self.given.push_reserved(Reception::Nothing);
                None
            }
            Some((bytes, peer)) => {
                let front = put_front(bytes, out);
                self.given.push_reserved(Reception::Came(front, peer));
                Some((front.len(), peer))
            }
        }
    }

    /// Whether each member of the list was used up.
    pub(crate) fn are_spent(&self) -> bool {
        self.given.len() >= self.answers.len()
    }

    /// Shows the next member of the list, cut to the slice, and uses up nothing.
    pub(crate) fn show_into(&self, out: &mut [u8]) -> Option<(usize, Peer)>
        ensures { IfSome result (λ datagram. datagram.0 ≤ length out.old) }
    {
        let place = self.given.len();
        if place >= self.answers.len() {
            return None;
        }
        match self.answers[place] {
            None => None,
            Some((bytes, peer)) => Some((put_front(bytes, out).len(), peer)),
        }
    }

    /// Uses up the next member of the list by a receive that fails; false, and nothing more, where the
    /// list is at its end.
    pub(crate) fn lose(&mut self) -> bool
        ensures lost { OnTrue result (Tells self.old self.new failed) }
        ensures ended { OnFalse result (self.new ≡ self.old) }
    {
        if self.given.len() >= self.answers.len() {
            return false;
        }
        let Some(count) = self.count else {
            return false;
        };
        self.count = one_more(count);
        self.given.push_reserved(Reception::Failed);
        true
    }
}
