//! Turns of the acquisition, with the buffers that wait beside it.

ghost use Rattle.std.specs.Prelude.{◌≡◌, ◌<◌, ◌≤◌, ◌++◌, ◌∷◌, [], List, length, vec_capacity, IsSome, Some};
ghost use Rattle.acquisition_machine.specs.Machine.{Input, datagram, claimed, tick as moment_input, stop as stopped};
ghost use Rattle.acquisition_machine.specs.Runs.{turn};
ghost use Rattle.acquisition_machine.specs.TurnLaws.{asked_by};
ghost use Rattle.acq_core.specs.Waiting.{waiting_fills, waiting_requests};
ghost use Rattle.acq_core.specs.Receiver.{config_of, asked_block, Stands, KeepsBlocks};
ghost use Rattle.take_lines.specs.Players.{places_of, outcome_of, Plays};
ghost use Rattle.take_lines.specs.Pool.{HasBuffers, IsPlaying};

use acq_core::{Acq, Need};
use arrayvec::ArrayVec;
use gev_types::Buf;

/// Lets go of the requests that wait.
fn drop_requests(acq: &mut Acq)
    ensures none { waiting_requests acq.new ≡ [] }
    ensures fills { waiting_fills acq.new ≡ waiting_fills acq.old }
    ensures rest { KeepsBlocks acq.old acq.new }
{
    'requests: loop {
        match acq.next_request() {
            Some(_) => {}
            None => return,
        }
    }
}

/// Takes the buffers of the fills that wait, and answers their places, first in first.
fn take_back(acq: &mut Acq, spare: &mut Vec<Buf>, size: u32) -> ArrayVec<u8, 4>
    requires has { HasBuffers size acq.old spare.old.items }
    requires room { 4 ≤ vec_capacity spare.old }
    ensures back { result.items ≡ places_of (waiting_fills acq.old) }
    ensures none { waiting_fills acq.new ≡ [] }
    ensures requests { waiting_requests acq.new ≡ waiting_requests acq.old }
    ensures rest { KeepsBlocks acq.old acq.new }
    ensures has { HasBuffers size acq.new spare.new.items }
    ensures room { 4 ≤ vec_capacity spare.new }
{
    let mut back = ArrayVec::new();
    'fills: loop {
        match acq.next_fill() {
            Some(fill) => {
                back.push(fill.place);
                spare.push_reserved(fill.buf);
            }
            None => return back,
        }
    }
}

/// Tells a datagram. Answers what it needs or what became of it, and the places of the buffers that came back.
pub(crate) fn tell(
    acq: &mut Acq,
    spare: &mut Vec<Buf>,
    size: u32,
    bytes: &[u8],
) -> (Need, ArrayVec<u8, 4>)
    requires playing { IsPlaying size acq.old spare.old.items }
    requires room { 4 ≤ vec_capacity spare.old }
    ensures need { (q : List Input) → Stands acq.old q → (turn (config_of acq.old) q (datagram bytes.now)).need ≡ Some result.0 }
    ensures asked { asked_block acq.new ≡ asked_by (Some result.0) }
    ensures plays { Plays (record { acq = acq.old; size = size }) (record { acq = acq.new; size = size }) (datagram bytes.now) result.1.items }
    ensures playing { IsPlaying size acq.new spare.new.items }
    ensures room { 4 ≤ vec_capacity spare.new }
{
    let need = acq.datagram(bytes);
    let back = take_back(acq, spare, size);
    (need, back)
}

/// Gives the block that asked a buffer, at this place. There always is one: fewer blocks are open than there are
/// buffers.
fn give_spare(acq: &mut Acq, spare: &mut Vec<Buf>, size: u32, place: u8)
    requires playing { IsPlaying size acq.old spare.old.items }
    requires asked { IsSome (asked_block acq.old) }
    requires some { 0 < length spare.old.items }
    requires room { 4 ≤ vec_capacity spare.old }
    ensures plays { Plays (record { acq = acq.old; size = size }) (record { acq = acq.new; size = size }) (claimed (outcome_of size (Some place))) [] }
    ensures playing { IsPlaying size acq.new spare.new.items }
    ensures room { 4 ≤ vec_capacity spare.new }
{
    match spare.pop() {
        Some(buf) => acq.give(Some((place, buf))),
        None => unreachable!(),
    }
}

/// Tells the outcome of a claim: a buffer at this place, or none.
pub(crate) fn give(acq: &mut Acq, spare: &mut Vec<Buf>, size: u32, place: Option<u8>)
    requires playing { IsPlaying size acq.old spare.old.items }
    requires asked { IsSome (asked_block acq.old) }
    requires room { 4 ≤ vec_capacity spare.old }
    ensures plays { Plays (record { acq = acq.old; size = size }) (record { acq = acq.new; size = size }) (claimed (outcome_of size place)) [] }
    ensures playing { IsPlaying size acq.new spare.new.items }
    ensures room { 4 ≤ vec_capacity spare.new }
{
    match place {
        Some(place) => give_spare(acq, spare, size, place),
        None => acq.give(None),
    }
}

/// Tells a moment, in milliseconds. Answers the places of the buffers that came back.
pub(crate) fn tell_moment(
    acq: &mut Acq,
    spare: &mut Vec<Buf>,
    size: u32,
    moment: u64,
) -> ArrayVec<u8, 4>
    requires playing { IsPlaying size acq.old spare.old.items }
    requires room { 4 ≤ vec_capacity spare.old }
    ensures plays { Plays (record { acq = acq.old; size = size }) (record { acq = acq.new; size = size }) (moment_input moment) result.items }
    ensures playing { IsPlaying size acq.new spare.new.items }
    ensures room { 4 ≤ vec_capacity spare.new }
{
    acq.tick(moment);
    drop_requests(acq);
    take_back(acq, spare, size)
}

/// Stops the acquisition. Answers the places of the buffers that came back.
pub(crate) fn tell_stop(acq: &mut Acq, spare: &mut Vec<Buf>, size: u32) -> ArrayVec<u8, 4>
    requires playing { IsPlaying size acq.old spare.old.items }
    requires room { 4 ≤ vec_capacity spare.old }
    ensures plays { Plays (record { acq = acq.old; size = size }) (record { acq = acq.new; size = size }) stopped result.items }
    ensures playing { IsPlaying size acq.new spare.new.items }
    ensures room { 4 ≤ vec_capacity spare.new }
{
    acq.stop();
    take_back(acq, spare, size)
}
