//! How threads meet on a board: each does its part, and what they did and left on the board is told.

ghost use Rattle.std.specs.Prelude.{◌≡◌};
ghost use Rattle.buffer_words.specs.Boards.{board_id};
ghost use Rattle.buffer_words.specs.Passes.{IsEmptyHanded};

use super::{call_meeting, mode_meeting, output_meeting, pool_meeting};
use arrayvec::ArrayVec;
use buffer_words::{Board, Pass};
use gentl_stream::{ds_announce, ds_queue};
use std::alloc::Global;
use std::sync::Wait;
use std::test::Fail;
use std::thread;
use std::thread::Threads;
use std::time::{Clock, Duration};

/// How often a thread looks for the others before it sleeps.
const LOOKS: u32 = 5000;

/// How often a thread sleeps before it gives up: where no further thread can be made the others' work comes
/// later, or never.
const SLEEPS: u32 = 200_000;

/// What a thread does.
#[derive(Clone, Copy)]
pub(crate) enum Part {
    Nothing,
    QueueLow,
    QueueHigh,
    FillEach,
    TakeUntilClosed,
    /// Closes the output after so many looks.
    Close(u32),
    FillNewest,
    TakeUntilStopped,
    FillPool,
    TakeQueued,
}

/// What a thread did.
#[derive(Drop)]
pub(crate) struct Did {
    /// The places that it moved, in order.
    pub places: ArrayVec<u8, 15>,
    /// How many buffers it moved.
    pub moved: u64,
    /// How often another thread changed the word between a look and the step.
    pub lost: u64,
    /// How many tries found nothing.
    pub empty: u64,
    /// How many images were dropped.
    pub dropped: u64,
    /// Whether the others came in time, and all was in order.
    pub well: bool,
}

/// The same with the thread's pass.
#[derive(Drop)]
struct Worked {
    pass: Pass,
    did: Did,
}

/// What three threads did, and what they left on the board.
#[derive(Drop)]
pub(crate) struct Met {
    pub first: Did,
    pub second: Did,
    pub third: Did,
    pub pool: ArrayVec<u8, 15>,
    pub output: ArrayVec<u8, 15>,
    pub closed: bool,
}

impl Met {
    /// How many tries the first two threads lost.
    pub fn lost(&self) -> u64 {
        self.first.lost.saturating_add(self.second.lost)
    }
}

/// Looks so many times whether the run word is this one: whether it was.
fn look_for(board: &Board, pass: &mut Pass, run: u8) -> bool
    requires table { pass.old.table ≡ board_id board.now }
    requires empty { IsEmptyHanded pass.old }
    ensures table { pass.new.table ≡ pass.old.table }
    ensures empty { IsEmptyHanded pass.new }
{
    'looks: for _ in 0..LOOKS {
        if board.look_run(pass) == run {
            return true;
        }
        std::hint::spin_loop();
    }
    false
}

/// Looks at the run word until it is this one: whether it was in time. Where another thread isn't there soon
/// it lets it run.
pub(crate) fn wait_for<R: Clock>(rt: &R, board: &Board, pass: &mut Pass, run: u8) -> bool
    requires table { pass.old.table ≡ board_id board.now }
    requires empty { IsEmptyHanded pass.old }
    ensures table { pass.new.table ≡ pass.old.table }
    ensures empty { IsEmptyHanded pass.new }
{
    'waits: for _ in 0..SLEEPS {
        if look_for(board, pass, run) {
            return true;
        }
        thread::sleep(rt, Duration::from_micros(20));
    }
    false
}

/// Announces a buffer of three bytes, and queues it where that is wanted.
fn announce(alloc: Global, board: &Board, pass: &mut Pass, queued: bool) -> Result<(), Fail>
    requires table { pass.old.table ≡ board_id board.now }
    requires empty { IsEmptyHanded pass.old }
    ensures table { pass.new.table ≡ pass.old.table }
    ensures empty { IsEmptyHanded pass.new }
{
    let Ok(id) = ds_announce(alloc, board, pass, 3) else {
        return Err(Fail::new("not announced"));
    };
    if !queued {
        return Ok(());
    }
    let Ok(()) = ds_queue(board, pass, id) else {
        return Err(Fail::new("not queued"));
    };
    Ok(())
}

/// Announces so many buffers.
fn announce_all(
    alloc: Global,
    board: &Board,
    pass: &mut Pass,
    count: u8,
    queued: bool,
) -> Result<(), Fail>
    requires table { pass.old.table ≡ board_id board.now }
    requires empty { IsEmptyHanded pass.old }
    ensures table { pass.new.table ≡ pass.old.table }
    ensures empty { IsEmptyHanded pass.new }
{
    'buffers: for _ in 0..count {
        announce(alloc, board, pass, queued)?;
    }
    Ok(())
}

/// Does a part.
fn do_part<R: Wait + Clock>(rt: &R, board: &Board, pass: &mut Pass, part: Part, did: &mut Did)
    requires table { pass.old.table ≡ board_id board.now }
    requires empty { IsEmptyHanded pass.old }
    ensures table { pass.new.table ≡ pass.old.table }
    ensures empty { IsEmptyHanded pass.new }
{
    match part {
        Part::Nothing => {}
        Part::QueueLow => pool_meeting::queue_low(rt, board, pass, did),
        Part::QueueHigh => pool_meeting::queue_high(rt, board, pass, did),
        Part::FillEach => output_meeting::fill_each(rt, board, pass, did),
        Part::TakeUntilClosed => output_meeting::take_until_closed(rt, board, pass, did),
        Part::Close(looks) => output_meeting::close_late(rt, board, pass, looks, did),
        Part::FillNewest => mode_meeting::fill_newest(rt, board, pass, did),
        Part::TakeUntilStopped => mode_meeting::take_until_stopped(rt, board, pass, did),
        Part::FillPool => call_meeting::fill_pool(rt, board, pass, did),
        Part::TakeQueued => call_meeting::take_queued(rt, board, pass, did),
    }
}

fn work<R: Wait + Clock>(rt: &R, board: &Board, mut pass: Pass, part: Part) -> Worked
    requires table { pass.table ≡ board_id board.now }
    requires empty { IsEmptyHanded pass }
    ensures table { result.pass.table ≡ board_id board.now }
    ensures empty { IsEmptyHanded result.pass }
{
    let mut did = Did {
        places: ArrayVec::new(),
        moved: 0,
        lost: 0,
        empty: 0,
        dropped: 0,
        well: true,
    };
    do_part(rt, board, &mut pass, part, &mut did);
    Worked { pass, did }
}

fn work_two<R: Threads + Wait + Clock + Sync>(
    rt: &R,
    board: &Board,
    first: Pass,
    second: Pass,
    parts: (Part, Part),
) -> (Worked, Worked)
    requires tables { (first.table ≡ board_id board.now) × (second.table ≡ board_id board.now) }
    requires empty { IsEmptyHanded first × IsEmptyHanded second }
    ensures first { (result.0.pass.table ≡ board_id board.now) × IsEmptyHanded result.0.pass }
    ensures second { (result.1.pass.table ≡ board_id board.now) × IsEmptyHanded result.1.pass }
{
    thread::join(
        rt,
        move || -> Worked
            requires { (first.table ≡ board_id board.now) × IsEmptyHanded first }
            ensures { (result.pass.table ≡ board_id board.entry.now) × IsEmptyHanded result.pass }
        { work(rt, board, first, parts.0) },
        move || -> Worked
            requires { (second.table ≡ board_id board.now) × IsEmptyHanded second }
            ensures { (result.pass.table ≡ board_id board.entry.now) × IsEmptyHanded result.pass }
        { work(rt, board, second, parts.1) },
    )
}

fn work_all<R: Threads + Wait + Clock + Sync>(
    rt: &R,
    board: &Board,
    first: Pass,
    second: Pass,
    third: Pass,
    parts: (Part, Part, Part),
) -> (Worked, (Worked, Worked))
    requires tables { (first.table ≡ board_id board.now) × (second.table ≡ board_id board.now) × (third.table ≡ board_id board.now) }
    requires empty { IsEmptyHanded first × IsEmptyHanded second × IsEmptyHanded third }
    ensures first { (result.0.pass.table ≡ board_id board.now) × IsEmptyHanded result.0.pass }
    ensures second { (result.1.0.pass.table ≡ board_id board.now) × IsEmptyHanded result.1.0.pass }
    ensures third { (result.1.1.pass.table ≡ board_id board.now) × IsEmptyHanded result.1.1.pass }
{
    thread::join(
        rt,
        move || -> Worked
            requires { (first.table ≡ board_id board.now) × IsEmptyHanded first }
            ensures { (result.pass.table ≡ board_id board.entry.now) × IsEmptyHanded result.pass }
        { work(rt, board, first, parts.0) },
        move || -> (Worked, Worked)
            requires { (second.table ≡ board_id board.now) × IsEmptyHanded second × (third.table ≡ board_id board.now) × IsEmptyHanded third }
            ensures { (result.0.pass.table ≡ board_id board.entry.now) × IsEmptyHanded result.0.pass × (result.1.pass.table ≡ board_id board.entry.now) × IsEmptyHanded result.1.pass }
        { work_two(rt, board, second, third, (parts.1, parts.2)) },
    )
}

/// Three threads do these parts on a new board of so many buffers, which are queued before where that is wanted.
pub(crate) fn meet<R: Threads + Wait + Clock + Sync>(
    rt: &R,
    alloc: Global,
    count: u8,
    queued: bool,
    parts: (Part, Part, Part),
) -> Result<Met, Fail> {
    let (board, mut pass) = Board::new(alloc)?;
    announce_all(alloc, &board, &mut pass, count, queued)?;
    let first = board.split(&mut pass);
    let second = board.split(&mut pass);
    let third = board.split(&mut pass);
    let all = work_all(rt, &board, first, second, third, parts);
    let first = all.0;
    let others = all.1;
    let second = others.0;
    let third = others.1;
    board.join(&mut pass, first.pass);
    board.join(&mut pass, second.pass);
    board.join(&mut pass, third.pass);
    let (_, closed) = board.look_out(&mut pass);
    Ok(Met {
        first: first.did,
        second: second.did,
        third: third.did,
        pool: board.sweep_pool(&mut pass),
        output: board.sweep_out(&mut pass),
        closed,
    })
}
