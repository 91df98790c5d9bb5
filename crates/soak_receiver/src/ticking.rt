//! Moments, and the requests that they bring.

ghost use Rattle.std.specs.Prelude.{◌≡◌, ◌∷◌, [], ◌++◌, OnOk};
ghost use Rattle.gev_script.specs.Lines as script_line;
ghost use Rattle.acquisition_machine.specs.Machine.{tick as told_moment};
ghost use Rattle.acq_core.specs.Receiver.{KeepsBlocks};
ghost use Rattle.acq_core.specs.Waiting.{waiting_fills, waiting_requests};
ghost use Rattle.world_laws.specs.Receiver.{told};
ghost use Rattle.soak_receiver.specs.Moves.{IsHosting, Moves, Asks};

use acq_core::Acq;
use board_calls::Mode;
use gev_types::NoMemory;
use script_replay::{Running, fill_retired};

/// Drops the requests that wait in the receiver.
fn drop_requests(acq: &mut Acq)
    ensures no_request { waiting_requests acq.new ≡ [] }
    ensures fills { waiting_fills acq.new ≡ waiting_fills acq.old }
    ensures rest { KeepsBlocks acq.old acq.new }
{
    while acq.next_request().is_some() {}
}

/// Adds each request that waits in the receiver, first in first. None waits afterwards, also where memory
/// runs out.
fn add_requests(acq: &mut Acq, requests: &mut Vec<[u8; 28]>) -> Result<(), NoMemory>
    ensures requests { OnOk result (requests.new.items ≡ requests.old.items ++ waiting_requests acq.old) }
    ensures no_request { waiting_requests acq.new ≡ [] }
    ensures fills { waiting_fills acq.new ≡ waiting_fills acq.old }
    ensures rest { KeepsBlocks acq.old acq.new }
{
    while let Some(bytes) = acq.next_request() {
        if requests.push(bytes).is_err() {
            drop_requests(acq);
            return Err(NoMemory);
        }
    }
    Ok(())
}

/// Tells the moment, in milliseconds: buffers of old blocks are filled into the output, and the requests of
/// packets that are missing are added.
pub(crate) fn tell_moment(
    running: &mut Running,
    moment: u64,
    requests: &mut Vec<[u8; 28]>,
) -> Result<(), NoMemory>
    requires { IsHosting running.old }
    ensures moves { Moves (script_line.tick moment ∷ []) (λ r. told (told_moment moment) r) running.old running.new }
    ensures requests { OnOk result (Asks moment running.old requests.old.items requests.new.items) }
    ensures hosting { IsHosting running.new }
{
    running.acq.tick(moment);
    fill_retired(
        &mut running.board,
        &mut running.acq,
        &mut running.counts,
        Mode::OldestFirst,
    );
    add_requests(&mut running.acq, requests)
}
