//! A datagram into the receiver, and images and requests out of it.

ghost use Rattle.std.specs.Prelude.{◌≡◌, [], OnOk, IfOk, Some};
ghost use Rattle.acquisition_machine.specs.TurnLaws.{asked_by};
ghost use Rattle.acq_core.specs.Receiver.{asked_block};
ghost use Rattle.acq_core.specs.Waiting.{waiting_fills, waiting_requests};

use gige_vision::images::Buf;
use gige_vision::receiver::{Acq, Need};
use std::io;

/// The buffers that no block has, each with its number.
pub(crate) type Pool = Vec<(u8, Buf)>;

/// Tells the receiver a datagram. Where it asks for a buffer it gets one of the pool, or the answer that there is
/// none, and is told the datagram once more.
pub(crate) fn receive(
    rt: &HostRuntime,
    acq: &mut Acq,
    pool: &mut Pool,
    bytes: &[u8],
) -> io::Result<()>
    requires no_fill { waiting_fills acq.old ≡ [] }
    requires no_request { waiting_requests acq.old ≡ [] }
    ensures no_fill { OnOk result (waiting_fills acq.new ≡ []) }
    ensures no_request { OnOk result (waiting_requests acq.new ≡ []) }
{
    match tell(rt, acq, pool, bytes)? {
        Need::Buffer(_) => {
            acq.give(pool.pop());
            tell(rt, acq, pool, bytes)?;
        }
        Need::Ignored(why) => println!(rt; "ignored: {why}")?,
        Need::Done => {}
    }
    Ok(())
}

/// Tells the receiver a datagram, and takes the images that it completes or displaces: the next call wants them
/// taken.
fn tell(rt: &HostRuntime, acq: &mut Acq, pool: &mut Pool, bytes: &[u8]) -> io::Result<Need>
    requires no_fill { waiting_fills acq.old ≡ [] }
    requires no_request { waiting_requests acq.old ≡ [] }
    ensures no_fill { OnOk result (waiting_fills acq.new ≡ []) }
    ensures no_request { waiting_requests acq.new ≡ [] }
    ensures asked { IfOk result (λ need. asked_block acq.new ≡ asked_by (Some need)) }
{
    let need = acq.datagram(bytes);
    take_images(rt, acq, pool)?;
    Ok(need)
}

/// Prints each image that waits in the receiver, and puts its buffer back into the pool.
pub(crate) fn take_images(rt: &HostRuntime, acq: &mut Acq, pool: &mut Pool) -> io::Result<()>
    ensures no_fill { OnOk result (waiting_fills acq.new ≡ []) }
    ensures requests { waiting_requests acq.new ≡ waiting_requests acq.old }
    ensures asked { asked_block acq.new ≡ asked_block acq.old }
{
    while let Some(image) = acq.next_fill() {
        print_image(rt, &image.buf)?;
        pool.push((image.place, image.buf))?;
    }
    Ok(())
}

/// Prints what a buffer holds. Its bytes are `buf.bytes()`.
fn print_image(rt: &HostRuntime, buf: &Buf) -> io::Result<()> {
    let record = buf.rec();
    let state = if record.complete {
        "complete"
    } else {
        "incomplete"
    };
    let (columns, rows) = match record.image {
        Some(image) => (image.size_x, image.rows),
        None => (0, 0),
    };
    println!(rt;
        "block {}: {state}, {columns} x {rows} pixels, {} of {} bytes came",
        record.block, record.filled, record.data_len
    )
}

/// Prints each command that asks the camera for missing packets. A program on a network sends it to the camera's
/// control port.
pub(crate) fn print_requests(rt: &HostRuntime, acq: &mut Acq) -> io::Result<()>
    ensures no_request { OnOk result (waiting_requests acq.new ≡ []) }
    ensures fills { waiting_fills acq.new ≡ waiting_fills acq.old }
{
    while let Some(command) = acq.next_request() {
        println!(rt; "ask for {}", hex::encode(rt.alloc(), &command)?)?;
    }
    Ok(())
}
