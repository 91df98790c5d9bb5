ghost use Rattle.std.specs.Prelude.{◌≡◌};
ghost use Rattle.gev_record.specs.declared.record_end.RecordEnd.TheVariants.{WriteFault, NoMemory};

use gev_links::Failed;

/// Why a script was written in part.
#[derive(Clone, Copy, Debug, PartialEq, Eq)]
pub enum RecordEnd {
    /// The sink failed.
    WriteFault,
    /// Memory ran out.
    NoMemory,
}

impl From<Failed> for RecordEnd {
    ghost from_gives = { λ _ end. end ≡ WriteFault };

    fn from(_failed: Failed) -> RecordEnd {
        RecordEnd::WriteFault
    }
}

impl From<gev_types::NoMemory> for RecordEnd {
    ghost from_gives = { λ _ end. end ≡ NoMemory };

    fn from(_error: gev_types::NoMemory) -> RecordEnd {
        RecordEnd::NoMemory
    }
}
