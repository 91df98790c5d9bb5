ghost use Rattle.std.specs.Prelude.{◌≡◌, ◌≤◌, ◌<◌, ◌+◌, ◌-◌, [], length, take, drop, vec_len, IfOk, OnOk, OnErr};
ghost use Rattle.std.specs.List.{between};
ghost use Rattle.gev_links.specs.Faults.{Rose};
ghost use Rattle.gev_links.specs.Told.{Gives, IsSpent};
ghost use Rattle.gev_script.specs.Window.{Holds};

use gev_links::{Failed, Source};
use gev_types::NoMemory;
use std::alloc::Global;
use std::marker::Model;

/// How many bytes are held at most: a block of the greatest length, and a piece.
const ROOM: usize = 1_114_112;

/// The room in which the bytes of a capture are held until their record is whole. What is held is moved to
/// the front only where it reaches the room's end.
///
/// Contracts see the bytes that are held.
#[derive(Drop)]
pub struct Room {
    room: Vec<u8>,
    start: usize,
    end: usize,
}

impl Model for Room {
    ghost use Rattle.std.specs.Prelude.{List, ℕ};
    ghost use Rattle.std.specs.List.{between};
    ghost use Rattle.gev_capture.specs.Reading.{IsRoom};

    ghost Value = { List ℕ };

    ghost view = { λ r. between r.start r.end r.room.items };

    ghost invariant = { λ r. IsRoom r.room.items r.start r.end };
}

impl Room {
    /// A room that holds nothing. All memory that reading needs is taken here.
    pub fn new(alloc: Global) -> Result<Room, NoMemory>
        ensures { IfOk result (λ room. room ≡ []) }
    {
        let room = vec![in alloc; 0u8; ROOM]?;
        Ok(Room {
            room,
            start: 0,
            end: 0,
        })
    }

    /// The bytes that are held.
    pub fn held(&self) -> &[u8]
        ensures { result.now ≡ self.now }
    {
        &self.room.as_slice()[self.start..self.end]
    }

    /// Lets go of so many bytes, those that were held first.
    pub fn skip(&mut self, count: usize)
        requires { count ≤ length self.old }
        ensures { self.new ≡ drop count self.old }
    {
        self.start += count;
    }

    /// Reads on behind the bytes that are held, and answers how many came.
    pub(crate) fn read_more<S: Source>(&mut self, source: &mut S) -> Result<usize, Failed>
        requires { length self.old ≤ 1048576 }
        ensures more { IfOk result (λ count. Holds count self.old self.new (S.left source.old) (S.left source.new)) }
        ensures no_fault { OnOk result (S.faults source.new ≡ S.faults source.old) }
        ensures kept { OnErr result (self.new ≡ self.old) }
        ensures untaken { OnErr result (S.left source.new ≡ S.left source.old) }
        ensures failed { OnErr result (Rose (S.faults source.old) (S.faults source.new)) }
        ensures never_falls { S.faults source.old ≤ S.faults source.new }
        ensures few { length self.new ≤ 1114112 }
    {
        let (start, end) = make_room(&mut self.room, self.start, self.end);
        self.start = start;
        self.end = end;
        let count = read_room(source, &mut self.room, end)?;
        self.end = end + count;
        Ok(count)
    }
}

/// Moves the bytes that are held to the front where they reach the room's end.
fn make_room(room: &mut Vec<u8>, start: usize, end: usize) -> (usize, usize)
    requires size { vec_len room.old ≡ 1114112 }
    requires order { start ≤ end }
    requires within { end ≤ 1114112 }
    requires short { end - start ≤ 1048576 }
    ensures kept { between result.0 result.1 room.new.items ≡ between start end room.old.items }
    ensures size { vec_len room.new ≡ 1114112 }
    ensures length { result.1 ≡ result.0 + (end - start) }
    ensures some { result.1 < 1114112 }
{
    if end < ROOM {
        return (start, end);
    }
    room.as_mut_slice().copy_within(start..end, 0);
    (0, end - start)
}

/// Reads bytes into the room from a place on.
fn read_room<S: Source>(source: &mut S, room: &mut Vec<u8>, end: usize) -> Result<usize, Failed>
    requires size { vec_len room.old ≡ 1114112 }
    requires some { end < 1114112 }
    ensures front { take end room.new.items ≡ take end room.old.items }
    ensures size { vec_len room.new ≡ 1114112 }
    ensures count { IfOk result (λ count. end + count ≤ 1114112) }
    ensures given { IfOk result (λ count. Gives (S.left source.old) (S.left source.new) (between end (end + count) room.new.items)) }
    ensures spent { IfOk result (λ count. count ≡ 0 → IsSpent (S.left source.old)) }
    ensures no_fault { OnOk result (S.faults source.new ≡ S.faults source.old) }
    ensures failed { OnErr result (Rose (S.faults source.old) (S.faults source.new)) }
    ensures untaken { OnErr result (S.left source.new ≡ S.left source.old) }
    ensures never_falls { S.faults source.old ≤ S.faults source.new }
{
    read_from(source, room.as_mut_slice(), end)
}

/// Reads bytes into the part of the room from a place on.
fn read_from<S: Source>(source: &mut S, room: &mut [u8], end: usize) -> Result<usize, Failed>
    requires size { length room.old ≡ 1114112 }
    requires some { end < 1114112 }
    ensures front { take end room.new ≡ take end room.old }
    ensures count { IfOk result (λ count. end + count ≤ 1114112) }
    ensures given { IfOk result (λ count. Gives (S.left source.old) (S.left source.new) (between end (end + count) room.new)) }
    ensures spent { IfOk result (λ count. count ≡ 0 → IsSpent (S.left source.old)) }
    ensures no_fault { OnOk result (S.faults source.new ≡ S.faults source.old) }
    ensures failed { OnErr result (Rose (S.faults source.old) (S.faults source.new)) }
    ensures untaken { OnErr result (S.left source.new ≡ S.left source.old) }
    ensures never_falls { S.faults source.old ≤ S.faults source.new }
{
    source.read(&mut room[end..])
}
