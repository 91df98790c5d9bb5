//! The machine that runs replay scripts.

ghost use Rattle.std.specs.Prelude.{◌≡◌, IfOk, None};
ghost use Rattle.script_trace.specs.Standing.{Standing, ReplayRuns, ReplayRefuses, replay_verdict, IsBehind};
ghost use Rattle.script_trace.proofs.Scripts.{lines_judged};
ghost use Rattle.script_replay.specs.Replays.{IsKept, RunsAs, RefusesAs, StandsFor};

use crate::beginning::first_line;
use crate::datagram_rooms::DatagramRooms;
use crate::later::later_line;
use crate::script::Script;
use gev_types::NoMemory;
use script_runs::{Headed, Machine, Modelled, Ran, Stop, run_headed};
use std::alloc::Global;
use std::marker::Model;

/// Runs a replay script, line by line.
///
/// The header makes a board, a receiver and the tree of handles, with all the memory that they use but for
/// announced buffers; each further line is run on them.
#[derive(Drop)]
pub struct Replay {
    script: Option<Script>,
    rooms: DatagramRooms,
}

impl Model for Replay {
    ghost use Rattle.std.specs.Prelude.{Option};
    ghost use Rattle.script_replay.specs.declared.script.Script.{Script};
    ghost use Rattle.script_replay.specs.Replays.{IsKept};

    ghost Value = { Option Script };

    ghost view = { λ r. r.script };

    ghost invariant = { λ r. IsKept r.script };
}

impl Replay {
    /// A replay before its first line. Reserves the room for the bytes of a datagram.
    pub fn new(alloc: Global) -> Result<Replay, NoMemory>
        ensures { IfOk result (λ replay. replay ≡ None) }
    {
        let rooms = DatagramRooms::new(alloc)?;
        Ok(Replay {
            script: None,
            rooms,
        })
    }
}

impl Headed for DatagramRooms {
    type Script = Script;

    type Came = Ran;

    ghost is_kept = { λ _. IsKept };

    ghost runs = { λ _ old n line ran out _ new. RunsAs old n line ran out new };

    ghost refuses = { RefusesAs };

    fn begin(&self, alloc: Global, line: &[u8]) -> Result<(Script, Ran), Stop> {
        Ok((first_line(alloc, line)?, Ran::GoesOn))
    }

    fn go_on(
        &mut self,
        alloc: Global,
        script: &mut Script,
        _number: u32,
        line: &[u8],
        out: &mut Vec<u8>,
    ) -> Result<Ran, Stop> {
        let ran = later_line(alloc, script, self, line, out)?;
        Ok(ran)
    }
}

impl Machine for Replay {
    ghost runs = { RunsAs };

    ghost refuses = { RefusesAs };

    fn run_line(
        &mut self,
        alloc: Global,
        number: u32,
        line: &[u8],
        out: &mut Vec<u8>,
    ) -> Result<Ran, Stop> {
        run_headed(alloc, &mut self.rooms, &mut self.script, number, line, out)
    }
}

impl Modelled for Replay {
    ghost Plain = { Standing };

    ghost plain_runs = { ReplayRuns };

    ghost plain_refuses = { ReplayRefuses };

    ghost stands_for = { StandsFor };

    ghost verdict = { replay_verdict };

    ghost behind = { IsBehind };

    ghost judges = { lines_judged };

    ghost simulates = { λ m new s n line ran report stands runs. runs s stands };

    ghost refuses_alike = { λ m s n line kind stands refuses. refuses s stands };
}
