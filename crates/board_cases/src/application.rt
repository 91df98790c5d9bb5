//! An acquisition and an application on two threads that share a board: what the application knows of the images that
//! came as datagrams.

ghost use Rattle.std.specs.Prelude.{◌≡◌, []};
ghost use Rattle.acq_core.specs.Receiver.{buffers};
ghost use Rattle.acq_core.specs.Waiting.{waiting_fills, waiting_requests};
ghost use Rattle.buffer_words.specs.Boards.{board_id};

use acq_core::{Acq, AcqConfig};
use anyhow::{Result, anyhow};
use arrayvec::ArrayVec;
use buffer_words::{Board, Pass};
use gentl_events::{event_get, event_kill};
use gentl_stream::{ds_announce, ds_queue, ds_return};
use gentl_types::GcError;
use gev_acq::{drain, receive};
use gev_links::{MemoryClock, OpenGate};
use gev_types::Record;
use shared_modes::Mode;
use std::alloc::Global;
use std::sync::Wait;
use std::thread;
use std::thread::Threads;

/// The records of the buffers that an application took.
type Records = ArrayVec<Record, 15>;

/// The acquisition's part: it takes these datagrams. What is open then retires, and the application's wait ends.
fn acquire<R: Wait>(rt: &R, board: &Board, mut pass: Pass, mut acq: Acq, datagrams: &[Vec<u8>])
    requires table { pass.table ≡ board_id board.now }
    requires fills { waiting_fills acq ≡ [] }
    requires requests { waiting_requests acq ≡ [] }
    requires buffers { buffers acq ≡ [] }
{
    'datagrams: for bytes in datagrams {
        let _ = receive(
            rt,
            board,
            &mut pass,
            &mut acq,
            &OpenGate,
            bytes,
            Mode::OldestFirst,
        );
    }
    drain(rt, board, &mut pass, &mut acq, Mode::OldestFirst);
    event_kill(board, &mut pass);
}

/// Waits for a filled buffer, and queues it again: its record.
fn take_one<R: Wait>(
    rt: &R,
    board: &Board,
    pass: &mut Pass,
    clock: &mut MemoryClock<'_>,
    timeout: u64,
) -> Result<Record, GcError>
    requires table { pass.old.table ≡ board_id board.now }
    ensures table { pass.new.table ≡ pass.old.table }
{
    match event_get(rt, board, pass, clock, &OpenGate, timeout) {
        Ok(loan) => {
            let id = loan.id();
            let record = loan.buf().rec();
            ds_return(board, pass, loan);
            let _ = ds_queue(board, pass, id);
            Ok(record)
        }
        Err(error) => Err(error),
    }
}

/// The application's part: it takes buffers until the acquisition has ended, and then those that still wait. Its clock
/// stands, so that it waits for as long as it takes.
fn take_all<R: Wait>(rt: &R, board: &Board, mut pass: Pass) -> Records
    requires table { pass.table ≡ board_id board.now }
{
    let mut clock = MemoryClock::new(&[]);
    let mut timeout = 1;
    let mut records = ArrayVec::new();
    'takes: for _ in rt.forever() {
        match take_one(rt, board, &mut pass, &mut clock, timeout) {
            Ok(record) => {
                let _ = records.try_push(record);
            }
            Err(GcError::Abort) => timeout = 0,
            Err(_) => return records,
        }
    }
    unreachable!()
}

/// What the application got of these datagrams. Its call is the first of the two, which comes last where no thread can be
/// made.
fn share<R: Threads + Wait + Sync>(
    rt: &R,
    board: &Board,
    receiver: Pass,
    taker: Pass,
    acq: Acq,
    datagrams: &[Vec<u8>],
) -> Records
    requires tables { (receiver.table ≡ board_id board.now) × (taker.table ≡ board_id board.now) }
    requires fills { waiting_fills acq ≡ [] }
    requires requests { waiting_requests acq ≡ [] }
    requires buffers { buffers acq ≡ [] }
{
    let (records, ()) = thread::join(
        rt,
        move || -> Records
            requires { taker.table ≡ board_id board.now }
        { take_all(rt, board, taker) },
        move || -> ()
            requires { (receiver.table ≡ board_id board.now) × (waiting_fills acq ≡ []) × (waiting_requests acq ≡ []) × (buffers acq ≡ []) }
        { acquire(rt, board, receiver, acq, datagrams) },
    );
    records
}

/// Announces and queues a buffer of 64 bytes.
fn bring(alloc: Global, board: &Board, pass: &mut Pass) -> Result<()>
    requires table { pass.old.table ≡ board_id board.now }
    ensures table { pass.new.table ≡ pass.old.table }
{
    let Ok(id) = ds_announce(alloc, board, pass, 64) else {
        return Err(anyhow!("not announced"));
    };
    let Ok(()) = ds_queue(board, pass, id) else {
        return Err(anyhow!("not queued"));
    };
    Ok(())
}

/// Four of them.
fn bring_four(alloc: Global, board: &Board, pass: &mut Pass) -> Result<()>
    requires table { pass.old.table ≡ board_id board.now }
    ensures table { pass.new.table ≡ pass.old.table }
{
    bring(alloc, board, pass)?;
    bring(alloc, board, pass)?;
    bring(alloc, board, pass)?;
    bring(alloc, board, pass)
}

/// What an application got of these datagrams on a new board with four buffers.
fn records<R: Threads + Wait + Sync>(
    rt: &R,
    alloc: Global,
    datagrams: &[Vec<u8>],
) -> Result<Records> {
    let (board, mut taker) = Board::new(alloc)?;
    bring_four(alloc, &board, &mut taker)?;
    let receiver = board.split(&mut taker);
    let acq = Acq::new(
        alloc,
        AcqConfig {
            p: 528,
            window: 2,
            timeout: 1000,
            age: 100,
            rounds: 0,
        },
    )?;
    Ok(share(rt, &board, receiver, taker, acq, datagrams))
}

/// What the application knows of a buffer by its record.
fn seen(alloc: Global, record: Record) -> Result<String> {
    let Record { block, image, .. } = record;
    match image {
        Some(image) => Ok(format!(in alloc;
            "\n  block {block}: rows {}, format {:08x}, timestamp {}",
            image.rows, image.pixel, image.timestamp
        )?),
        None => Ok(format!(in alloc; "\n  block {block}: no leader")?),
    }
}

/// The datagrams of a row, each of hexadecimal digits.
fn datagrams_of(alloc: Global, words: &[&str]) -> Result<Vec<Vec<u8>>> {
    let mut datagrams = Vec::new(alloc);
    for digits in words.iter().skip(1) {
        datagrams.push(hex::decode(alloc, digits.as_bytes())?)?;
    }
    Ok(datagrams)
}

/// How many records there are, and what the application knows of each.
fn all_seen(alloc: Global, records: &Records) -> Result<String> {
    let mut text = format!(in alloc; "{} buffers", records.len())?;
    for record in records {
        text.push_str(seen(alloc, *record)?.as_str())?;
    }
    Ok(text)
}

/// `frames DATAGRAM ..`: how many buffers the application got, and what it knows of each.
pub fn frames<R: Threads + Wait + Sync>(rt: &R, alloc: Global, words: &[&str]) -> Result<String> {
    let datagrams = datagrams_of(alloc, words)?;
    all_seen(alloc, &records(rt, alloc, datagrams.as_slice())?)
}
