//! The calls on the run word and on the kill mark.
ghost use Rattle.std.specs.Prelude.{◌≡◌};
ghost use Rattle.board_machine.specs.declared.events.Event.TheVariants as event;
ghost use Rattle.buffer_words.specs.Boards.{board_id};
ghost use Rattle.buffer_words.specs.Passes.{Enters, SameHands};

use crate::pass::Pass;
use crate::words::Board;

impl Board {
    /// The run word: 0 before the first start and after a stop, 1 while running, 2 after a kill stop.
    pub fn look_run(&self, pass: &mut Pass) -> u8
        requires table { pass.old.table ≡ board_id self.now }
        ensures entry { Enters pass.old (event.LookRun result) pass.new }
        ensures hands { SameHands pass.old pass.new }
    {
        self.look_at_run(&mut pass.seat)
    }

    /// Starts the acquisition: the run word is 1 then. Where it was 1 already, that is the refusal.
    pub fn start(&self, pass: &mut Pass) -> Result<(), u8>
        requires table { pass.old.table ≡ board_id self.now }
        ensures entry { Enters pass.old (event.Start result) pass.new }
        ensures hands { SameHands pass.old pass.new }
    {
        self.set_running(&mut pass.seat)
    }

    /// Stops the acquisition: the run word is 0 then, or 2 after a kill stop. Where it wasn't 1, it
    /// stays what it was and is the refusal.
    pub fn stop(&self, pass: &mut Pass, kill: bool) -> Result<(), u8>
        requires table { pass.old.table ≡ board_id self.now }
        ensures entry { Enters pass.old (event.Stop kill result) pass.new }
        ensures hands { SameHands pass.old pass.new }
    {
        self.set_stopped(&mut pass.seat, kill)
    }

    /// Sets the kill mark, which ends a wait for a buffer.
    pub fn post(&self, pass: &mut Pass)
        requires table { pass.old.table ≡ board_id self.now }
        ensures entry { Enters pass.old event.Post pass.new }
        ensures hands { SameHands pass.old pass.new }
    {
        self.set_kill(&mut pass.seat);
    }

    /// Clears the kill mark: whether it stood.
    pub fn unpost(&self, pass: &mut Pass) -> bool
        requires table { pass.old.table ≡ board_id self.now }
        ensures entry { Enters pass.old (event.Unpost result) pass.new }
        ensures hands { SameHands pass.old pass.new }
    {
        self.clear_kill(&mut pass.seat)
    }
}
