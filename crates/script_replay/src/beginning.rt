//! The first line of a script.

ghost use Rattle.std.specs.Prelude.{◌≡◌, ◌≤◌, length, IfOk, MatchResult};
ghost use Rattle.acq_core.specs.Standing.{IsConfig};
ghost use Rattle.acq_core.specs.Receiver.{config_of};
ghost use Rattle.script_runs.specs.Runs.{IfRefused};
ghost use Rattle.script_trace.specs.Opening.{opening};
ghost use Rattle.script_replay.specs.Replays.{StandsAt, IsReplaying, Begins, IsNoHeader};

use crate::fill_counts::FillCounts;
use crate::opening::{open_board, open_handles};
use crate::running::Running;
use crate::script::Script;
use crate::widening::Widening;
use acq_core::Acq;
use acquisition_machine::AcqConfig;
use board_model::Mode;
use gev_script::{Line, ScriptKind, parse_line};
use gev_types::NoMemory;
use gvsp_std::Widener;
use script_runs::Stop;
use std::alloc::Global;

/// What stands behind a header with this configuration. All memory that the script will use is taken here,
/// but for announced buffers.
pub fn begin(alloc: Global, config: AcqConfig) -> Result<Running, NoMemory>
    requires { IsConfig config }
    ensures stands { IfOk result (λ r. StandsAt r opening) }
    ensures config { IfOk result (λ r. config_of r.acq ≡ config) }
    ensures keeps { IfOk result (λ r. IsReplaying r) }
{
    let board = open_board(alloc)?;
    let acq = Acq::new(alloc, config)?;
    let (tree, stream) = open_handles(alloc)?;
    Ok(Running {
        board,
        acq,
        tree,
        stream,
        counts: FillCounts {
            fills: 0,
            complete: 0,
            dropped: 0,
        },
        taken: 0,
        idle: 0,
        mode: Mode::OldestFirst,
        told_mode: false,
    })
}

/// Runs the first line, which has to be a header.
pub fn first_line(alloc: Global, line: &[u8]) -> Result<Script, Stop>
    requires short { length line.now ≤ 20000 }
    ensures { MatchResult result (λ r. Begins line.now r) (λ stop. IfRefused stop (λ kind. IsNoHeader line.now kind)) }
{
    match parse_line(line) {
        Ok(
            Line::Header {
                version,
                p,
                window,
                timeout,
                age,
                rounds,
            },
        ) => {
            let config = AcqConfig {
                p,
                window,
                timeout,
                age,
                rounds,
            };
            match begin(alloc, config) {
                Ok(running) => Ok(Script {
                    running,
                    widening: Widening {
                        version,
                        widener: Widener::new(),
                        widened: false,
                        refused: 0,
                    },
                }),
                Err(NoMemory) => Err(Stop::NoMemory),
            }
        }
        _ => Err(Stop::Refused(ScriptKind::Header)),
    }
}
