//! The steps on the run word and the kill mark.

ghost use Rattle.std.specs.Prelude.{◌≡◌};
ghost use Rattle.board_machine.specs.declared.events.Event.TheVariants.{LookRun, Start, Stop, Post, Unpost};
ghost use Rattle.board_machine.specs.Machine.{IsActor};
ghost use Rattle.board_machine.specs.Adding.{AddsEntry};

use crate::board::PlainBoard;

impl PlainBoard {
    /// Looks at the run word: 1 while running, 0 before the first start and after a stop, 2 after a kill
    /// stop.
    pub fn look_run(&mut self, actor: u8) -> u8
        requires actor { IsActor self.old.board actor }
        ensures step { AddsEntry self.old.board actor (LookRun result) self.new.board }
        ensures contents { self.new.contents ≡ self.old.contents }
    {
        self.run
    }

    /// Starts the acquisition. Where it runs already the answer is the run word.
    pub fn start(&mut self, actor: u8) -> Result<(), u8>
        requires actor { IsActor self.old.board actor }
        ensures step { AddsEntry self.old.board actor (Start result) self.new.board }
        ensures contents { self.new.contents ≡ self.old.contents }
    {
        if self.run == 1 {
            return Err(1);
        }
        self.run = 1;
        Ok(())
    }

    /// Stops the acquisition, by a kill stop where `kill` is true. Where it doesn't run the answer is the
    /// run word.
    pub fn stop(&mut self, actor: u8, kill: bool) -> Result<(), u8>
        requires actor { IsActor self.old.board actor }
        ensures step { AddsEntry self.old.board actor (Stop kill result) self.new.board }
        ensures contents { self.new.contents ≡ self.old.contents }
    {
        if self.run != 1 {
            return Err(self.run);
        }
        self.run = if kill { 2 } else { 0 };
        Ok(())
    }

    /// Sets the kill mark.
    pub fn post(&mut self, actor: u8)
        requires actor { IsActor self.old.board actor }
        ensures step { AddsEntry self.old.board actor Post self.new.board }
        ensures contents { self.new.contents ≡ self.old.contents }
    {
        self.kill = true;
    }

    /// Clears the kill mark, and tells whether it stood.
    pub fn unpost(&mut self, actor: u8) -> bool
        requires actor { IsActor self.old.board actor }
        ensures step { AddsEntry self.old.board actor (Unpost result) self.new.board }
        ensures contents { self.new.contents ≡ self.old.contents }
    {
        let stood = self.kill;
        self.kill = false;
        stood
    }
}
