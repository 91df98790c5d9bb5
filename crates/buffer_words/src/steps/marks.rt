//! The single steps on the kill mark and on the run word.
ghost use Rattle.std.specs.Prelude.{◌≡◌};
ghost use Rattle.board_machine.specs.declared.events.Event.TheVariants as event;
ghost use Rattle.buffer_words.specs.Boards.{board_id};
ghost use Rattle.buffer_words.specs.Plays.{IsIdle, LooksAt};
ghost use Rattle.buffer_words.specs.Marks.{stopped_run};

use crate::plays::marks::{LookRun, Post, Start, Stop, Unpost};
use crate::words::{Board, Seat};

/// The words of the kill mark and of the run word in the table.
const KILL: usize = 17;

const RUN: usize = 18;

/// The run word while running.
const RUNNING: u64 = 1;

/// The run word that a stop leaves.
fn run_after_stop(kill: bool) -> u64
    ensures { result ≡ stopped_run kill }
{
    if kill { 2 } else { 0 }
}

impl Board {
    /// The run word: 0 before a start and after a stop, 1 while running, 2 after a kill stop.
    pub(crate) fn look_at_run(&self, seat: &mut Seat) -> u8
        requires table { seat.old.table_id ≡ board_id self.now }
        requires idle { IsIdle seat.old.me }
        ensures table { seat.new.table_id ≡ seat.old.table_id }
        ensures looks { LooksAt seat.old.me (event.LookRun result) seat.new.me }
    {
        self.table.shared.load::<LookRun>(seat, RUN) as u8
    }

    /// Starts, where the run word isn't 1. A refused start writes the 1 that stood there.
    pub(crate) fn set_running(&self, seat: &mut Seat) -> Result<(), u8>
        requires table { seat.old.table_id ≡ board_id self.now }
        requires idle { IsIdle seat.old.me }
        ensures table { seat.new.table_id ≡ seat.old.table_id }
        ensures starts { LooksAt seat.old.me (event.Start result) seat.new.me }
    {
        let run = self.table.shared.swap::<Start>(seat, RUN, RUNNING);
        if run == RUNNING {
            return Err(run as u8);
        }
        Ok(())
    }

    /// Stops, where the run word is 1, or leaves it and tells what it is.
    pub(crate) fn set_stopped(&self, seat: &mut Seat, kill: bool) -> Result<(), u8>
        requires table { seat.old.table_id ≡ board_id self.now }
        requires idle { IsIdle seat.old.me }
        ensures table { seat.new.table_id ≡ seat.old.table_id }
        ensures stops { LooksAt seat.old.me (event.Stop kill result) seat.new.me }
    {
        let new = run_after_stop(kill);
        let run = self
            .table
            .shared
            .compare_exchange::<Stop>(seat, RUN, RUNNING, new);
        if run == RUNNING {
            Ok(())
        } else {
            Err(run as u8)
        }
    }

    /// Sets the kill mark.
    pub(crate) fn set_kill(&self, seat: &mut Seat)
        requires table { seat.old.table_id ≡ board_id self.now }
        requires idle { IsIdle seat.old.me }
        ensures table { seat.new.table_id ≡ seat.old.table_id }
        ensures posts { LooksAt seat.old.me event.Post seat.new.me }
    {
        self.table.shared.swap::<Post>(seat, KILL, 1);
    }

    /// Clears the kill mark: whether it stood.
    pub(crate) fn clear_kill(&self, seat: &mut Seat) -> bool
        requires table { seat.old.table_id ≡ board_id self.now }
        requires idle { IsIdle seat.old.me }
        ensures table { seat.new.table_id ≡ seat.old.table_id }
        ensures clears { LooksAt seat.old.me (event.Unpost result) seat.new.me }
    {
        self.table.shared.swap::<Unpost>(seat, KILL, 0) == 1
    }
}
