//! Datagrams of the stream.

ghost use Rattle.std.specs.Prelude.{◌∷◌, []};
ghost use Rattle.world_laws.specs.Receiver.{hears};
ghost use Rattle.soak_receiver.specs.Moves.{IsHosting, Moves, heard_line};

use board_calls::Mode;
use script_replay::{Running, receive};

/// Tells a datagram. Where it wants a buffer, one is claimed and the datagram is told again; buffers that
/// come back are filled into the output.
pub(crate) fn receive_datagram(running: &mut Running, bytes: &[u8])
    requires { IsHosting running.old }
    ensures moves { Moves (heard_line bytes.now ∷ []) (λ r. hears r bytes.now) running.old running.new }
    ensures hosting { IsHosting running.new }
{
    receive(
        &mut running.board,
        &mut running.acq,
        &mut running.counts,
        Mode::OldestFirst,
        bytes,
    );
}
