//! Clocks in memory, and gates.

use gev_links::{Clock, FillBell, Gate, HoldingGate, MemoryClock, OpenGate};

/// An hour, in microseconds.
const HOUR: u64 = 3_600_000_000;

/// What a clock with these moments tells in six calls.
fn told(moments: &[u64]) -> [u64; 6] {
    let mut clock = MemoryClock::new(moments);
    let mut told = [0; 6];
    for place in 0..6 {
        told[place] = clock.now();
    }
    told
}

#[test]
fn clocks_in_memory(rt: HostRuntime) {
    assert!(rt; told(&[10, 12, 11]) == [10, 12, 11, 11, 11, 11]);
    assert!(rt; told(&[7]) == [7; 6]);
    assert!(rt; told(&[]) == [0; 6]);
}

#[test]
fn gates_let_pass() {
    OpenGate.pass(1);
    HoldingGate::new(2, 5).pass(1);
    HoldingGate::new(2, 5).pass(2);
}

#[test]
fn fills_ring_a_bell(rt: HostRuntime) {
    let bell = FillBell::new();
    bell.pass(1);
    bell.pass(2);
    assert!(rt; bell.rings() == 0);
    bell.pass(3);
    bell.pass(3);
    assert!(rt; bell.rings() == 2);
    // rung since: it doesn't rest
    bell.rest(&rt, 0, HOUR);
}

#[test]
fn other_gates_rest_by_time(rt: HostRuntime) {
    assert!(rt; OpenGate.rings() == 0);
    OpenGate.rest(&rt, 0, 1);
    HoldingGate::new(2, 5).rest(&rt, 0, 1);
}
