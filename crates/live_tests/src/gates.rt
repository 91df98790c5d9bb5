//! Workers that meet at a gate, on two threads, and one that waits in vain.

use gev_links::{Gate, MeetingGate};
use std::thread;
use std::thread::Threads;

fn pass_both<R: Threads + Sync>(rt: &R, gate: &MeetingGate) {
    let _ = thread::join(
        rt,
        move || {
            gate.pass(1);
            gate.pass(1);
            gate.pass(1);
        },
        move || {
            gate.pass(2);
            gate.pass(2);
        },
    );
}

/// Whether so many fills and takes have passed this gate.
fn has_counted(gate: &MeetingGate, fills: u64, takes: u64) -> bool {
    gate.fills() == fills && gate.takes() == takes
}

// A second fill and a first take on two threads meet.
#[test]
fn a_fill_and_a_take_meet(rt: HostRuntime) {
    let gate = MeetingGate::new(2_000_000_000);
    pass_both(&rt, &gate);
    assert!(rt; gate.have_met() && has_counted(&gate, 3, 2));
}

/// Whether at this gate, which waits for a short time, a second fill and a first take don't meet, each alone.
fn waits_in_vain(gate: &MeetingGate) -> bool {
    gate.pass(1);
    gate.pass(2);
    let take_met = gate.have_met();
    gate.pass(1);
    let fill_met = gate.have_met();
    gate.pass(3);
    !take_met && !fill_met
}

// Where nobody takes, a second fill waits in vain, and so does a first take where there was one fill.
#[test]
fn a_worker_alone_waits_in_vain(rt: HostRuntime) {
    let gate = MeetingGate::new(10);
    assert!(rt; waits_in_vain(&gate) && has_counted(&gate, 2, 1));
}
