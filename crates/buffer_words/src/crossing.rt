//! Threads share a board, and a pass goes from one to another.
use crate::loan::Loan;
use crate::pass::Pass;
use crate::words::Board;

fn is_shared<T: Sync>(_value: &T) {}

fn crosses<T: Send>(_value: &T) {}

/// Does nothing: threads may share a board.
pub fn board_is_shared(board: &Board) {
    is_shared(board);
}

/// Does nothing: a board, a pass and a loan may go to another thread.
pub fn tokens_cross(board: &Board, pass: &Pass, loan: &Loan) {
    crosses(board);
    crosses(pass);
    crosses(loan);
}
