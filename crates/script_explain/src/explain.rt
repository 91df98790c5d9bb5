//! The machine that explains replay scripts.

ghost use Rattle.std.specs.Prelude.{◌≡◌, IfOk, None};
ghost use Rattle.script_trace.specs.Standing.{replay_verdict, IsBehind};
ghost use Rattle.script_trace.specs.Explaining.{Telling, ExplainRuns, ExplainRefuses};
ghost use Rattle.script_trace.proofs.Reports.{explanations_are_judged};
ghost use Rattle.script_explain.specs.Explains.{IsKept, RunsAs, RefusesAs, StandsFor};

use crate::explained::Explained;
use crate::rooms::Rooms;
use crate::telling::run_later;
use crate::writing::write_line;
use gev_types::NoMemory;
use note_tape::none_counted;
use script_replay::{DatagramRooms, first_line};
use script_runs::{Headed, Machine, Modelled, Ran, Stop, run_headed};
use std::alloc::Global;
use std::marker::Model;

/// Runs a replay script, line by line, as a replay does, and writes notes before the report of each line.
///
/// A note tells of a block that was opened, that retired or that was never opened, of a datagram that isn't in an
/// image, or of packets that were asked for; the last one counts blocks. Memory doesn't grow with the script but by
/// the buffers that it announces.
#[derive(Drop)]
pub struct Explain {
    explained: Option<Explained>,
    rooms: Rooms,
}

impl Model for Explain {
    ghost use Rattle.std.specs.Prelude.{Option};
    ghost use Rattle.script_explain.specs.declared.explained.Explained.{Explained};
    ghost use Rattle.script_explain.specs.Explains.{IsKept};

    ghost Value = { Option Explained };

    ghost view = { λ e. e.explained };

    ghost invariant = { λ e. IsKept e.explained };
}

impl Explain {
    /// An explanation before its first line. Reserves the room for the bytes of a datagram.
    pub fn new(alloc: Global) -> Result<Explain, NoMemory>
        ensures { IfOk result (λ explain. explain ≡ None) }
    {
        let datagram = DatagramRooms::new(alloc)?;
        Ok(Explain {
            explained: None,
            rooms: Rooms {
                datagram,
                report: Vec::new(alloc),
                tape: Vec::new(alloc),
            },
        })
    }
}

impl Headed for Rooms {
    type Script = Explained;

    type Came = Ran;

    ghost is_kept = { λ _. IsKept };

    ghost runs = { λ _ old n line ran out _ new. RunsAs old n line ran out new };

    ghost refuses = { RefusesAs };

    fn begin(&self, alloc: Global, line: &[u8]) -> Result<(Explained, Ran), Stop> {
        let script = first_line(alloc, line)?;
        let counts = none_counted();
        Ok((Explained { script, counts }, Ran::GoesOn))
    }

    fn go_on(
        &mut self,
        alloc: Global,
        explained: &mut Explained,
        number: u32,
        line: &[u8],
        out: &mut Vec<u8>,
    ) -> Result<Ran, Stop> {
        let ran = run_later(alloc, &mut explained.script, self, line)?;
        match write_line(explained, ran, number, self, out) {
            Ok(()) => Ok(ran),
            Err(NoMemory) => Err(Stop::NoMemory),
        }
    }
}

impl Machine for Explain {
    ghost runs = { RunsAs };

    ghost refuses = { RefusesAs };

    fn run_line(
        &mut self,
        alloc: Global,
        number: u32,
        line: &[u8],
        out: &mut Vec<u8>,
    ) -> Result<Ran, Stop> {
        run_headed(
            alloc,
            &mut self.rooms,
            &mut self.explained,
            number,
            line,
            out,
        )
    }
}

impl Modelled for Explain {
    ghost Plain = { Telling };

    ghost plain_runs = { ExplainRuns };

    ghost plain_refuses = { ExplainRefuses };

    ghost stands_for = { StandsFor };

    ghost verdict = { replay_verdict };

    ghost behind = { λ m n. IsBehind m.standing n };

    ghost judges = { explanations_are_judged };

    ghost simulates = { λ m new s n line ran report stands runs. runs s stands };

    ghost refuses_alike = { λ m s n line kind stands refuses. refuses s stands };
}
