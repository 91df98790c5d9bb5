//! What stands behind the header of a script: the board with its actors, and the open handles.

ghost use Rattle.std.specs.Prelude.{◌≡◌, IfOk, IsOk, option_map};
ghost use Rattle.board_machine.specs.Machine.{empty_board};
ghost use Rattle.board_machine.specs.Histories.{After};
ghost use Rattle.script_trace.specs.Opening.{opening, first_handles};
ghost use Rattle.gentl_handles.specs.Handles.{no_handles};
ghost use Rattle.gentl_handles.specs.Opening.{opening as opening_under, with_opened};
ghost use Rattle.script_replay.specs.Boards.{IsLeftBy, IsReady};

use crate::board_lines::CALLER;
use board_model::PlainBoard;
use gentl_handles::{Handle, Tree};
use gev_types::NoMemory;
use std::alloc::Global;

/// A board on which the actors 1 to 5 are split off. It reserves all the memory that it needs.
pub(crate) fn open_board(alloc: Global) -> Result<PlainBoard, NoMemory>
    ensures left { IfOk result (λ board. IsLeftBy board opening.entries) }
    ensures ready { IfOk result (λ board. IsReady board) }
{
    let mut board = PlainBoard::new(alloc)?;
    split_off(&mut board);
    Ok(board)
}

/// Splits the actors 1 to 5 off on an empty board.
fn split_off(board: &mut PlainBoard)
    requires empty { board.old.board ≡ empty_board }
    ensures splits { board.new.board ≡ After opening.entries }
    ensures contents { board.new.contents ≡ board.old.contents }
{
    board.split(CALLER);
    board.split(CALLER);
    board.split(CALLER);
    board.split(CALLER);
    board.split(CALLER);
}

/// The handles that are open when a script begins, and that of the stream.
pub(crate) fn open_handles(alloc: Global) -> Result<(Tree, Handle), NoMemory>
    ensures handles { IfOk result (λ opened. opened.0 ≡ first_handles) }
    ensures stream { IfOk result (λ opened. opened.1.serial ≡ 4) }
{
    let mut tree = Tree::new(alloc)?;
    let stream = open_first(&mut tree);
    Ok((tree, stream))
}

/// Opens a system, an interface, a device, a stream and its event, and gives the stream's handle.
fn open_first(tree: &mut Tree) -> Handle
    requires empty { tree.old ≡ no_handles }
    ensures after { tree.new ≡ first_handles }
    ensures stream { result.serial ≡ 4 }
{
    let system = open_one(tree, None);
    let interface = open_one(tree, Some(system));
    let device = open_one(tree, Some(interface));
    let stream = open_one(tree, Some(device));
    open_one(tree, Some(stream));
    stream
}

/// Opens the child with number 0, which isn't refused.
fn open_one(tree: &mut Tree, parent: Option<Handle>) -> Handle
    requires { IsOk (opening_under tree.old (option_map (λ handle. handle.serial) parent) 0) }
    ensures serial { IfOk (opening_under tree.old (option_map (λ handle. handle.serial) parent) 0) (λ opened. result.serial ≡ opened.serial) }
    ensures after { tree.new ≡ with_opened tree.old (opening_under tree.old (option_map (λ handle. handle.serial) parent) 0) }
{
    match tree.open_child(parent, 0) {
        Ok(handle) => handle,
        Err(_refusal) => unreachable!(),
    }
}
