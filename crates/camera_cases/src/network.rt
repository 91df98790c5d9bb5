//! A network that loses, repeats and swaps.

use crate::fault::Fault;
use crate::row::{number, rates};
use gev_frames::Lcg;
use lossy_queue::{Channel, LossyQueue};
use std::alloc::Global;

/// Puts datagrams of one byte, the numbers from 0 on, and tells the order in which they come, and what the
/// generator draws behind them.
pub fn answer(alloc: Global, row: &str) -> Result<String, Fault> {
    let rates = rates(row)?;
    let mut generator = Lcg::new(number(row, 1)?);
    let mut queue = LossyQueue::new(alloc);
    for put in 0..number(row, 2)? {
        let byte = (put % 256) as u8;
        queue.put(rates, &mut generator, Channel::Stream, &[byte])?;
    }
    let order = order(alloc, &mut queue)?;
    let drawn = generator.draw();
    Ok(format!(in alloc; "{order} {} {drawn}", queue.is_empty())?)
}

/// What comes, up to 32 datagrams, in hex.
fn order(alloc: Global, queue: &mut LossyQueue) -> Result<String, Fault> {
    let mut came = Vec::new(alloc);
    for _next in 0..32 {
        let Some(datagram) = queue.pop() else {
            break;
        };
        came.extend_from_slice(datagram.bytes.as_slice())?;
    }
    Ok(hex::encode(alloc, &came)?)
}
