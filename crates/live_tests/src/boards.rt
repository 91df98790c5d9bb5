//! Boards for the tests of lanes, and the blocks that they are told of.

ghost use Rattle.std.specs.Prelude.{◌≡◌, ◌≤◌, IfOk};
ghost use Rattle.buffer_words.specs.Boards.{board_id};
ghost use Rattle.gev_types.specs.Limits.{place_count};

use acq_core::AcqConfig;
use board_calls::TakeEnd;
use buffer_words::{Board, Pass};
use gev_types::{Buf, NoMemory, Peer};
use live_crew::prepare;
use output_queue::take;
use std::alloc::Global;
use std::sync::Wait;

pub const CAMERA: Peer = Peer {
    address: 0x7f00_0001,
    port: 3956,
};

pub const ONE_BLOCK: AcqConfig = AcqConfig {
    p: 528,
    window: 1,
    timeout: 1000,
    age: 100,
    rounds: 1,
};

// The leader, payload and trailer of the image `abc` in block 1, and of `xyz` in block 2.
pub const PACKETS: &[Option<(&[u8], Peer)>] = &[
    Some((
        b"\0\0\0\0\x81\0\0\0\0\0\0\0\0\0\0\x01\0\0\0\0\0\0\0\x01\0\0\0\0\0\0\0\0\x01\x08\0\x01\0\0\0\x03\0\0\0\x01\0\0\0\0\0\0\0\0\0\0\0\0",
        CAMERA,
    )),
    Some((b"\0\0\0\0\x83\0\0\0\0\0\0\0\0\0\0\x01\0\0\0\x01abc", CAMERA)),
    Some((
        b"\0\0\0\0\x82\0\0\0\0\0\0\0\0\0\0\x01\0\0\0\x02\0\0\0\x01\0\0\0\x01",
        CAMERA,
    )),
    Some((
        b"\0\0\0\0\x81\0\0\0\0\0\0\0\0\0\0\x02\0\0\0\0\0\0\0\x01\0\0\0\0\0\0\0\0\x01\x08\0\x01\0\0\0\x03\0\0\0\x01\0\0\0\0\0\0\0\0\0\0\0\0",
        CAMERA,
    )),
    Some((b"\0\0\0\0\x83\0\0\0\0\0\0\0\0\0\0\x02\0\0\0\x01xyz", CAMERA)),
    Some((
        b"\0\0\0\0\x82\0\0\0\0\0\0\0\0\0\0\x02\0\0\0\x02\0\0\0\x01\0\0\0\x01",
        CAMERA,
    )),
];

// A board whose acquisition runs, with so many buffers of 4 bytes in the pool.
pub fn new_board(alloc: Global, buffers: u8) -> Result<(Board, Pass), NoMemory>
    requires few { buffers ≤ place_count }
    ensures table { IfOk result (λ made. made.1.table ≡ board_id made.0) }
{
    let (board, mut pass) = Board::new(alloc)?;
    prepare(alloc, &board, &mut pass, 4, buffers)?;
    Ok((board, pass))
}

/// The block of this buffer; 9 where it isn't the block's whole image.
fn whole_block(buf: &Buf) -> u64 {
    let block = buf.rec().block;
    let image: &[u8] = if block == 1 { b"abc\0" } else { b"xyz\0" };
    if buf.rec().complete && buf.bytes() == image {
        block
    } else {
        9
    }
}

// The block of the first buffer in the output; 0 where there is none, and 9 where it isn't the block's whole image.
pub fn next_block<R: Wait>(rt: &R, board: &Board, pass: &mut Pass) -> u64
    requires table { pass.old.table ≡ board_id board.now }
    ensures table { pass.new.table ≡ pass.old.table }
{
    match take(rt, board, pass) {
        TakeEnd::Taken(place) => {
            let buf = board.lift(pass, place);
            let block = whole_block(&buf);
            board.set_down(pass, place, buf);
            block
        }
        _ => 0,
    }
}
