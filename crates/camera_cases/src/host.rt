//! The host of a soak run: its receiver, its board, and the application that takes buffers.

use crate::fault::Fault;
use crate::row::{number, word};
use soak_receiver::SoakReceiver;
use std::alloc::Global;

/// The answer to a row of the host.
pub fn answer(alloc: Global, host: &mut SoakReceiver, row: &str) -> Result<String, Fault> {
    match word(row, 1) {
        "new" => *host = SoakReceiver::new(alloc)?,
        "hear" => host.hear(&hex::decode(alloc, word(row, 2))?),
        "tick" => return tick(alloc, host, number(row, 2)?),
        "take" => return take(alloc, host),
        _ => return Err(Fault::NotUnderstood),
    }
    Ok(format!(in alloc; "{} {:?}", host.is_idle(), host.numbers())?)
}

/// Tells the moment: the first request that is made, and how many are.
fn tick(alloc: Global, host: &mut SoakReceiver, moment: u64) -> Result<String, Fault> {
    let mut requests = Vec::new(alloc);
    host.tick(moment, &mut requests)?;
    let count = requests.len();
    match requests.first() {
        Some(first) => Ok(format!(in alloc; "{count} {}", hex::encode(alloc, first)?)?),
        None => Ok(format!(in alloc; "{count}")?),
    }
}

/// Takes the first filled buffer: its line, and whether there was one.
fn take(alloc: Global, host: &mut SoakReceiver) -> Result<String, Fault> {
    let mut line = Vec::new(alloc);
    let took = host.take(alloc, &mut line)?;
    match str::from_utf8(&line) {
        Ok(text) => Ok(format!(in alloc; "{}/{took:?}", text.trim_end())?),
        Err(_error) => Err(Fault::NotUnderstood),
    }
}
