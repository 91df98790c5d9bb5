//! The application that writes what it takes.

ghost use Rattle.std.specs.Prelude.{◌≡◌};
ghost use Rattle.buffer_words.specs.Boards.{board_id};

use crate::board::fill_new;
use crate::fields::Fields;
use crate::printing::print_text;
use crate::received::lines::buffer;
use anyhow::Result;
use buffer_words::{Board, Pass};
use camera_words::{LineDigest, Output};
use frame_writing::{HandedOut, InputWatch, Outlet, Progress, hand_out_frames};
use gev_links::{Clock, MeetingGate, MemoryClock, MemorySink, MemorySource};
use std::alloc::Global;
use std::sync::Wait;

/// What is written, by its word.
fn output(word: &str) -> Output {
    match word {
        "lines" => Output::Lines(LineDigest::Sha256),
        "bare" => Output::Lines(LineDigest::Omitted),
        "pictures" => Output::Pictures,
        _ => Output::Counts,
    }
}

/// What a row asks for: whether the acquisition runs, how many buffers are asked for and what is written, whether an input is
/// watched and its text, the moments of the looks at it, the application's own ones, and the numbers of the writes that fail.
#[derive(Drop)]
struct Asked<'x> {
    runs: bool,
    frames: u32,
    output: Output,
    on: bool,
    text: &'x str,
    looks: Vec<u64>,
    moments: Vec<u64>,
    writes: Vec<u64>,
}

/// What the next fields ask for.
fn asked_for<'x>(alloc: Global, fields: &mut Fields<'x>) -> Result<Asked<'x>> {
    Ok(Asked {
        runs: fields.byte() == 1,
        frames: fields.small(),
        output: output(fields.word()),
        on: fields.byte() == 1,
        text: fields.text(),
        looks: fields.numbers(alloc)?,
        moments: fields.numbers(alloc)?,
        writes: fields.numbers(alloc)?,
    })
}

/// The application that tells how it goes each so many milliseconds, which the first field says.
pub fn tell<R: Wait>(rt: &HostRuntime, handles: &R, fields: &mut Fields<'_>) -> Result<()> {
    let millis = fields.small();
    hand_out(rt, handles, millis, fields)
}

/// The application where the acquisition runs or not, where so many buffers are asked for and this is written, where an
/// input with this text is watched or not, with the moments of the clock by which it's looked at, the application's own
/// ones and the numbers of the writes that fail, and where two buffers wait: how it ended, the moment that is read next,
/// how often the gate was passed, the places in the pool, what was written, and what was told each `millis` milliseconds.
pub fn hand_out<R: Wait>(
    rt: &HostRuntime,
    handles: &R,
    millis: u32,
    fields: &mut Fields<'_>,
) -> Result<()> {
    let asked = asked_for(rt.alloc(), fields)?;
    hand_out_asked(rt, handles, millis, &asked, fields)
}

/// The same, where the next fields tell the buffers.
fn hand_out_asked<R: Wait>(
    rt: &HostRuntime,
    handles: &R,
    millis: u32,
    asked: &Asked<'_>,
    fields: &mut Fields<'_>,
) -> Result<()> {
    let (board, mut pass) = Board::new(rt.alloc())?;
    ready(rt.alloc(), &board, &mut pass, asked.runs, fields)?;
    hand_out_from(rt, handles, millis, asked, &board, &mut pass)
}

/// Starts the acquisition, where it runs, and fills two buffers by the next fields.
fn ready(
    alloc: Global,
    board: &Board,
    pass: &mut Pass,
    runs: bool,
    fields: &mut Fields<'_>,
) -> Result<()>
    requires table { pass.old.table ≡ board_id board.now }
    ensures table { pass.new.table ≡ pass.old.table }
{
    if runs {
        let _ = board.start(pass);
    }
    fill_new(board, pass, 0, buffer(alloc, fields)?)?;
    fill_new(board, pass, 1, buffer(alloc, fields)?)
}

/// The application, where the buffers wait on this board.
fn hand_out_from<R: Wait>(
    rt: &HostRuntime,
    handles: &R,
    millis: u32,
    asked: &Asked<'_>,
    board: &Board,
    pass: &mut Pass,
) -> Result<()>
    requires table { pass.old.table ≡ board_id board.now }
{
    let mut sink = MemorySink::new(rt.alloc(), 1000, asked.writes.as_slice());
    hand_out_to(rt, handles, millis, asked, board, pass, &mut sink)?;
    print_text(rt, sink.written())?;
    print_text(rt, sink.told())
}

/// What the application has at hand.
fn outlet_of<'x>(millis: u32, asked: &'x Asked<'_>) -> Outlet<MemoryClock<'x>, MemoryClock<'x>> {
    Outlet {
        frames: asked.frames,
        output: asked.output,
        clock: MemoryClock::new(asked.moments.as_slice()),
        watch: InputWatch {
            clock: MemoryClock::new(asked.looks.as_slice()),
            on: asked.on,
            next: 0,
        },
        progress: Progress::each(millis),
    }
}

/// The application, where it writes to this sink: how it ended, the moment that is read next, how often the gate was passed, and
/// the places in the pool.
fn hand_out_to<R: Wait>(
    rt: &HostRuntime,
    handles: &R,
    millis: u32,
    asked: &Asked<'_>,
    board: &Board,
    pass: &mut Pass,
    sink: &mut MemorySink<'_>,
) -> Result<()>
    requires table { pass.old.table ≡ board_id board.now }
{
    let gate = MeetingGate::new(1);
    let mut outlet = outlet_of(millis, asked);
    let mut input = MemorySource::new(asked.text.as_bytes(), 1, &[]);
    let out = &mut outlet;
    let looks = &mut input;
    let handed = hand_out_frames(handles, rt.alloc(), board, pass, &gate, out, sink, looks);
    print_handed(rt, handed, outlet.clock.now(), gate.takes())?;
    print_pool(rt, board, pass)
}

/// What was taken, how the application ended, the moment that is read next, and how often the gate was passed.
fn print_handed(rt: &HostRuntime, handed: HandedOut, next: u64, takes: u64) -> Result<()> {
    print!(rt;
        "{} taken, {} complete, {:?}, next {next}, takes {takes}",
        handed.taken, handed.complete, handed.end
    )?;
    Ok(())
}

/// The places in the pool.
fn print_pool(rt: &HostRuntime, board: &Board, pass: &mut Pass) -> Result<()>
    requires table { pass.old.table ≡ board_id board.now }
{
    print!(rt; ", pool {:?}", board.look_pool(pass).as_slice())?;
    Ok(())
}
