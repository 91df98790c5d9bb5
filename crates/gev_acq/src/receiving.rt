ghost use Rattle.std.specs.Prelude.{◌≡◌, [], Some};
ghost use Rattle.acquisition_machine.specs.TurnLaws.{asked_by};
ghost use Rattle.acq_core.specs.Receiver.{config_of, asked_block, buffers, Stands};
ghost use Rattle.acq_core.specs.Waiting.{waiting_fills, waiting_requests};
ghost use Rattle.buffer_words.specs.Boards.{board_id};
ghost use Rattle.gev_acq.specs.Buffers.{Backs, HoldsAlone};
ghost use Rattle.gev_acq.specs.Heard.{kept_by};
ghost use Rattle.gev_acq.specs.Receiving.{TellsOnce, Receives};

use crate::claiming::claim_one;
use crate::filling::fill_all;
use crate::heard::Heard;
use acq_core::{Acq, Need};
use board_calls::Mode;
use buffer_words::{Board, Pass};
use gev_links::Gate;
use std::sync::Wait;

/// Tells the receiver a datagram. What retires is filled. Where the receiver asks for a buffer, one is
/// claimed, and the datagram is told once more.
pub fn receive<R: Wait, G: Gate>(
    rt: &R,
    board: &Board,
    pass: &mut Pass,
    acq: &mut Acq,
    gate: &G,
    bytes: &[u8],
    mode: Mode,
) -> Heard
    requires table { pass.old.table ≡ board_id board.now }
    requires fills { waiting_fills acq.old ≡ [] }
    requires requests { waiting_requests acq.old ≡ [] }
    requires backs { Backs pass.old (buffers acq.old) }
    ensures receives { Receives mode (config_of acq.old) (Stands acq.old) (Stands acq.new) bytes.now result pass.old pass.new }
    ensures config { config_of acq.new ≡ config_of acq.old }
    ensures fills { waiting_fills acq.new ≡ [] }
    ensures requests { waiting_requests acq.new ≡ [] }
    ensures backs { Backs pass.new (buffers acq.new) }
    ensures alone { HoldsAlone pass.old (buffers acq.old) → HoldsAlone pass.new (buffers acq.new) }
{
    match fill_what_retires(rt, board, pass, acq, gate, bytes, mode) {
        Need::Buffer(block) => {
            let claim = claim_one(rt, board, pass, acq, mode);
            let kept = is_done(fill_what_retires(rt, board, pass, acq, gate, bytes, mode));
            Heard {
                kept,
                opened: block,
                claim,
            }
        }
        Need::Done => Heard {
            kept: true,
            opened: 0,
            claim: None,
        },
        Need::Ignored(_) => Heard {
            kept: false,
            opened: 0,
            claim: None,
        },
    }
}

/// Whether the packet was kept.
fn is_done(need: Need) -> bool
    ensures { result ≡ kept_by (Some need) }
{
    match need {
        Need::Done => true,
        Need::Buffer(_) | Need::Ignored(_) => false,
    }
}

/// Tells the receiver a datagram, and fills what retires. The answer is what the datagram needs.
fn fill_what_retires<R: Wait, G: Gate>(
    rt: &R,
    board: &Board,
    pass: &mut Pass,
    acq: &mut Acq,
    gate: &G,
    bytes: &[u8],
    mode: Mode,
) -> Need
    requires table { pass.old.table ≡ board_id board.now }
    requires fills { waiting_fills acq.old ≡ [] }
    requires requests { waiting_requests acq.old ≡ [] }
    requires backs { Backs pass.old (buffers acq.old) }
    ensures tells { TellsOnce mode (config_of acq.old) (Stands acq.old) (Stands acq.new) bytes.now result pass.old pass.new }
    ensures table { pass.new.table ≡ pass.old.table }
    ensures config { config_of acq.new ≡ config_of acq.old }
    ensures fills { waiting_fills acq.new ≡ [] }
    ensures requests { waiting_requests acq.new ≡ [] }
    ensures asked { asked_block acq.new ≡ asked_by (Some result) }
    ensures backs { Backs pass.new (buffers acq.new) }
    ensures alone { HoldsAlone pass.old (buffers acq.old) → HoldsAlone pass.new (buffers acq.new) }
{
    let need = acq.datagram(bytes);
    fill_all(rt, board, pass, acq, gate, mode);
    need
}
