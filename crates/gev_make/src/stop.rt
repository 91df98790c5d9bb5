ghost use Rattle.std.specs.Prelude.{◌≡◌};
ghost use Rattle.gev_make.specs.declared.stop.Stop.TheVariants.{WriteFault, NoMemory};

use gev_links::Failed;

/// Why the writing of a script stopped.
#[derive(Clone, Copy, Debug, PartialEq, Eq)]
pub enum Stop {
    /// The sink failed.
    WriteFault,
    /// Memory ran out.
    NoMemory,
}

impl From<Failed> for Stop {
    ghost from_gives = { λ _ stop. stop ≡ WriteFault };

    fn from(_failed: Failed) -> Stop {
        Stop::WriteFault
    }
}

impl From<gev_types::NoMemory> for Stop {
    ghost from_gives = { λ _ stop. stop ≡ NoMemory };

    fn from(_error: gev_types::NoMemory) -> Stop {
        Stop::NoMemory
    }
}
