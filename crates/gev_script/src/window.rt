ghost use Rattle.std.specs.Prelude.{◌≡◌, ◌≢◌, ◌≤◌, ◌<◌, ◌+◌, ◌-◌, [], length, take, vec_len, IfOk, OnOk, OnErr, MatchResult};
ghost use Rattle.std.specs.List.{between};
ghost use Rattle.gev_links.specs.Faults.{Rose};
ghost use Rattle.gev_links.specs.Told.{Gives, IsSpent};
ghost use Rattle.gev_script.specs.Window.{FindsFeed, Finds, Holds, Takes};

use crate::line_end::LineEnd;
use gev_links::{Failed, Source};
use gev_types::NoMemory;
use memchr::memchr;
use std::alloc::Global;
use std::marker::Model;

/// How many bytes are held at most.
const ROOM: usize = 32_768;

/// The most bytes of a line, without its line feed.
const LONGEST_LINE: usize = 20_000;

/// What the bytes that are held begin with.
#[derive(Clone, Copy)]
pub(crate) enum Found {
    /// A line, which was taken.
    Line,
    /// More than a line may have.
    Long,
    /// Less than a line.
    Open,
}

/// The room in which lines are found. Each byte is searched once; what is held is moved to the front
/// only where it reaches the room's end.
#[derive(Drop)]
pub(crate) struct Window {
    room: Vec<u8>,
    line_start: usize,
    line_end: usize,
    start: usize,
    end: usize,
    searched: usize,
}

impl Model for Window {
    ghost use Rattle.std.specs.List.{between};
    ghost use Rattle.gev_script.specs.Window.{WindowState, IsWindow};

    ghost Value = { WindowState };

    ghost view = { λ w. record {
      line = between w.line_start w.line_end w.room.items;
      held = between w.start w.end w.room.items;
    } };

    ghost invariant = { λ w. IsWindow w.room.items w.line_start w.line_end w.start w.end w.searched };
}

impl Window {
    /// A room that holds nothing.
    pub(crate) fn new(alloc: Global) -> Result<Window, NoMemory>
        ensures line { IfOk result (λ w. w.line ≡ []) }
        ensures held { IfOk result (λ w. w.held ≡ []) }
    {
        let room = vec![in alloc; 0u8; ROOM]?;
        Ok(Window {
            room,
            line_start: 0,
            line_end: 0,
            start: 0,
            end: 0,
            searched: 0,
        })
    }

    /// The line that was taken last, until more is read.
    pub(crate) fn line(&self) -> &[u8]
        ensures { result.now ≡ self.now.line }
    {
        &self.room.as_slice()[self.line_start..self.line_end]
    }

    /// Takes a line, if the bytes that are held begin with one.
    fn find_line(&mut self) -> Found
        ensures finds { Finds result self.old self.new }
        ensures few { length self.new.held ≤ 32768 }
    {
        let length = self.end - self.start;
        let held = &self.room.as_slice()[self.start..self.end];
        let Some(place) = feed_in(held, self.searched) else {
            self.searched = length;
            return if length > LONGEST_LINE {
                Found::Long
            } else {
                Found::Open
            };
        };
        if place > LONGEST_LINE {
            return Found::Long;
        }
        self.line_start = self.start;
        self.line_end = self.start + place;
        self.start = self.line_end + 1;
        self.searched = 0;
        Found::Line
    }

    /// Reads on behind the bytes that are held, and answers how many came. The last line is lost.
    fn read_more<S: Source>(&mut self, source: &mut S) -> Result<usize, Failed>
        requires { length self.old.held ≤ 20000 }
        ensures more { IfOk result (λ count. Holds count self.old.held self.new.held (S.left source.old) (S.left source.new)) }
        ensures no_fault { OnOk result (S.faults source.new ≡ S.faults source.old) }
        ensures kept { OnErr result (self.new.held ≡ self.old.held) }
        ensures untaken { OnErr result (S.left source.new ≡ S.left source.old) }
        ensures failed { OnErr result (Rose (S.faults source.old) (S.faults source.new)) }
        ensures never_falls { S.faults source.old ≤ S.faults source.new }
        ensures few { length self.new.held ≤ 32768 }
    {
        let (start, end) = make_room(&mut self.room, self.start, self.end);
        self.start = start;
        self.end = end;
        self.line_start = 0;
        self.line_end = 0;
        let count = read_room(source, &mut self.room, end)?;
        self.end = end + count;
        Ok(count)
    }
}

/// The place of the first line feed, if there is one; none stands in what was searched.
fn feed_in(held: &[u8], searched: usize) -> Option<usize>
    requires { searched ≤ length held.now }
    ensures { FindsFeed held.now searched result }
{
    match memchr(b'\n', &held[searched..]) {
        Some(place) => Some(searched + place),
        None => None,
    }
}

/// Moves the bytes that are held to the front where they reach the room's end.
fn make_room(room: &mut Vec<u8>, start: usize, end: usize) -> (usize, usize)
    requires size { vec_len room.old ≡ 32768 }
    requires order { start ≤ end }
    requires within { end ≤ 32768 }
    requires short { end - start ≤ 20000 }
    ensures kept { between result.0 result.1 room.new.items ≡ between start end room.old.items }
    ensures size { vec_len room.new ≡ 32768 }
    ensures length { result.1 ≡ result.0 + (end - start) }
    ensures some { result.1 < 32768 }
{
    if end < ROOM {
        return (start, end);
    }
    room.as_mut_slice().copy_within(start..end, 0);
    (0, end - start)
}

/// Reads bytes into the room from a place on.
fn read_room<S: Source>(source: &mut S, room: &mut Vec<u8>, end: usize) -> Result<usize, Failed>
    requires size { vec_len room.old ≡ 32768 }
    requires some { end < 32768 }
    ensures front { take end room.new.items ≡ take end room.old.items }
    ensures size { vec_len room.new ≡ 32768 }
    ensures count { IfOk result (λ count. end + count ≤ 32768) }
    ensures given { IfOk result (λ count. Gives (S.left source.old) (S.left source.new) (between end (end + count) room.new.items)) }
    ensures spent { IfOk result (λ count. count ≡ 0 → IsSpent (S.left source.old)) }
    ensures no_fault { OnOk result (S.faults source.new ≡ S.faults source.old) }
    ensures failed { OnErr result (Rose (S.faults source.old) (S.faults source.new)) }
    ensures untaken { OnErr result (S.left source.new ≡ S.left source.old) }
    ensures never_falls { S.faults source.old ≤ S.faults source.new }
{
    read_from(source, room.as_mut_slice(), end)
}

/// Reads bytes into the part of the room from a place on.
fn read_from<S: Source>(source: &mut S, room: &mut [u8], end: usize) -> Result<usize, Failed>
    requires size { length room.old ≡ 32768 }
    requires some { end < 32768 }
    ensures front { take end room.new ≡ take end room.old }
    ensures count { IfOk result (λ count. end + count ≤ 32768) }
    ensures given { IfOk result (λ count. Gives (S.left source.old) (S.left source.new) (between end (end + count) room.new)) }
    ensures spent { IfOk result (λ count. count ≡ 0 → IsSpent (S.left source.old)) }
    ensures no_fault { OnOk result (S.faults source.new ≡ S.faults source.old) }
    ensures failed { OnErr result (Rose (S.faults source.old) (S.faults source.new)) }
    ensures untaken { OnErr result (S.left source.new ≡ S.left source.old) }
    ensures never_falls { S.faults source.old ≤ S.faults source.new }
{
    source.read(&mut room[end..])
}

/// Holds the next line, and reads only while the bytes that are held have none and aren't too long.
pub(crate) fn hold_next_line<S: Source>(window: &mut Window, source: &mut S) -> Result<(), LineEnd>
    requires { length window.old.held ≤ 32768 }
    ensures takes { Takes result window.old window.new (S.left source.old) (S.left source.new) (S.faults source.old) (S.faults source.new) }
    ensures steady { result ≢ Err LineEnd.ReadFault → S.faults source.new ≡ S.faults source.old }
    ensures never_falls { S.faults source.old ≤ S.faults source.new }
    ensures few { length window.new.held ≤ 32768 }
{
    loop {
        match window.find_line() {
            Found::Line => return Ok(()),
            Found::Long => return Err(LineEnd::Long),
            Found::Open => {}
        }
        match window.read_more(source) {
            Ok(0) => return Err(LineEnd::NoEnd),
            Ok(_) => {}
            Err(Failed) => return Err(LineEnd::ReadFault),
        }
    }
}
