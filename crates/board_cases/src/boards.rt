//! A plain board and a shared one, on which each row is run.

ghost use Rattle.board_cases.specs.Ready.{IsReady};

use crate::answer::Answer;
use crate::call::Act;
use crate::shared::Actor;
use crate::{plain, shared};
use board_model::PlainBoard;
use buffer_words::{Board, Pass};
use gev_types::NoMemory;
use std::alloc::{AllocError, Global};
use std::marker::Model;
use std::sync::Wait;

/// Both boards, each with the actors 0 to 3.
#[derive(Drop)]
pub struct Boards {
    plain: PlainBoard,
    board: Board,
    host: Actor,
    first: Actor,
    second: Actor,
    third: Actor,
}

impl Model for Boards {
    ghost use Rattle.atomic_table.specs.Seated.{TableId};
    ghost use Rattle.buffer_words.specs.Boards.{board_id};
    ghost use Rattle.board_cases.specs.Ready.{IsReady};

    ghost Value = { TableId };

    ghost view = { λ b. board_id b.board };

    ghost invariant = { λ b. IsReady (board_id b.board) b.host.pass b.host.held × IsReady (board_id b.board) b.first.pass b.first.held × IsReady (board_id b.board) b.second.pass b.second.held × IsReady (board_id b.board) b.third.pass b.third.held };
}

/// An actor with empty hands.
fn actor(pass: Pass) -> Actor
    ensures { IsReady pass.table result.pass result.held }
{
    Actor { pass, held: None }
}

impl Boards {
    /// Two new boards.
    pub fn new(alloc: Global) -> Result<Boards, NoMemory> {
        let plain = plain::new_board(alloc)?;
        let (board, mut host) = Board::new(alloc)?;
        let first = board.split(&mut host);
        let second = board.split(&mut host);
        let third = board.split(&mut host);
        Ok(Boards {
            plain,
            board,
            host: actor(host),
            first: actor(first),
            second: actor(second),
            third: actor(third),
        })
    }

    /// What the actor with this number does in one row, on the plain board and on the shared one.
    pub fn act<R: Wait>(
        &mut self,
        rt: &R,
        alloc: Global,
        number: u8,
        act: Act,
    ) -> (Answer, Answer) {
        let plain = plain::act(alloc, &mut self.plain, number, act);
        let shared = match number {
            0 => shared::act(rt, alloc, &self.board, &mut self.host, act),
            1 => shared::act(rt, alloc, &self.board, &mut self.first, act),
            2 => shared::act(rt, alloc, &self.board, &mut self.second, act),
            3 => shared::act(rt, alloc, &self.board, &mut self.third, act),
            _ => Answer::NotInHand,
        };
        (plain, shared)
    }

    /// What a wait of the host of the shared board answers, by the words of its row.
    pub fn wait<R: Wait>(
        &mut self,
        rt: &R,
        alloc: Global,
        words: &[&str],
    ) -> Result<Option<Answer>, AllocError> {
        shared::wait_row(rt, alloc, &self.board, &mut self.host, words)
    }
}
