//! Flushes and the close of a stream.

ghost use Rattle.std.specs.Prelude.{◌≡◌, ◌≢◌};
ghost use Rattle.board_machine.specs.Machine.{IsActor};
ghost use Rattle.board_machine.specs.Adding.{AddsOf};
ghost use Rattle.board_model.specs.Holdings.{with_empty_records, FlushesAsLying};
ghost use Rattle.board_calls.specs.Calls.{DiscardsOutput, DiscardsAll, FlushesToInput, Flushes, Closes};

use crate::board::PlainBoard;
use gentl_types::GcError;

impl PlainBoard {
    /// Sweeps the output and lays it.
    pub(crate) fn discard_output(&mut self, actor: u8)
        requires actor { IsActor self.old.board actor }
        ensures entries { AddsOf self.old.board actor DiscardsOutput self.new.board }
        ensures contents { self.new.contents ≡ self.old.contents }
    {
        let output = self.sweep_out(actor);
        self.lay_each(actor, output.as_slice());
    }

    /// Sweeps pool and output and lays them, the pool's places first.
    pub(crate) fn discard_all(&mut self, actor: u8)
        requires actor { IsActor self.old.board actor }
        ensures entries { AddsOf self.old.board actor DiscardsAll self.new.board }
        ensures contents { self.new.contents ≡ self.old.contents }
    {
        let pooled = self.sweep_pool(actor);
        let output = self.sweep_out(actor);
        self.lay_each(actor, pooled.as_slice());
        self.lay_each(actor, output.as_slice());
    }

    /// Sweeps the output and pools it, then pools each buffer that the application has.
    pub(crate) fn flush_to_input(&mut self, actor: u8)
        requires actor { IsActor self.old.board actor }
        ensures entries { AddsOf self.old.board actor FlushesToInput self.new.board }
        ensures contents { self.new.contents ≡ self.old.contents }
    {
        let output = self.sweep_out(actor);
        self.pool_each(actor, output.as_slice());
        self.pool_held(actor);
    }

    /// DSFlushQueue, with operation 0 INPUT_TO_OUTPUT, 1 OUTPUT_DISCARD, 2 ALL_TO_INPUT, 3
    /// UNQUEUED_TO_INPUT or 4 ALL_DISCARD. A buffer in another actor's hands stays there.
    pub fn ds_flush(&mut self, actor: u8, operation: u32) -> Result<(), GcError>
        requires actor { IsActor self.old.board actor }
        ensures entries { AddsOf self.old.board actor (Flushes operation result) self.new.board }
        ensures to_output { operation ≡ 0 → self.new.contents ≡ with_empty_records self.old.board.pool self.old.contents }
        ensures fills { operation ≡ 0 → AddsOf self.old.board actor (FlushesAsLying self.old.contents) self.new.board }
        ensures others { operation ≢ 0 → self.new.contents ≡ self.old.contents }
    {
        match operation {
            0 => {
                self.flush_to_output(actor);
                Ok(())
            }
            1 => {
                self.discard_output(actor);
                Ok(())
            }
            2 => {
                self.flush_to_input(actor);
                Ok(())
            }
            3 => {
                self.pool_held(actor);
                Ok(())
            }
            4 => {
                self.discard_all(actor);
                Ok(())
            }
            _ => Err(GcError::InvalidParameter(u64::from(operation))),
        }
    }

    /// EventFlush: gives each buffer of the output to the application.
    pub fn event_flush(&mut self, actor: u8)
        requires actor { IsActor self.old.board actor }
        ensures entries { AddsOf self.old.board actor DiscardsOutput self.new.board }
        ensures contents { self.new.contents ≡ self.old.contents }
    {
        self.discard_output(actor);
    }

    /// DSClose: sets the close mark, and gives each buffer of output and pool to the application. The
    /// buffers stay announced.
    pub fn ds_close(&mut self, actor: u8)
        requires actor { IsActor self.old.board actor }
        ensures entries { AddsOf self.old.board actor Closes self.new.board }
        ensures contents { self.new.contents ≡ self.old.contents }
    {
        self.close(actor);
        let output = self.sweep_out(actor);
        let pooled = self.sweep_pool(actor);
        self.lay_each(actor, output.as_slice());
        self.lay_each(actor, pooled.as_slice());
    }
}
