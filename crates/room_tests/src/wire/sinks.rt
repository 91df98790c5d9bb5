//! Sinks in memory: which writes fail, how many bytes the others take, and whole texts.

use super::numbers::{FAILED, digits};
use gev_links::{MemorySink, Sink, write_all};
use std::alloc::Global;

const TEXT: [u8; 5] = [1, 2, 3, 4, 5];

/// One write of at most 5 bytes: how many were taken, or `FAILED`.
fn write<K: Sink>(sink: &mut K, length: usize) -> u64 {
    match sink.write(&TEXT[..length.min(5)]) {
        Ok(count) => count as u64,
        Err(_) => FAILED,
    }
}

/// What writes of the text's first bytes, so many each, answer.
fn writes<K: Sink>(sink: &mut K, lengths: [usize; 6]) -> [u64; 6] {
    let mut taken = [0; 6];
    for place in 0..6 {
        taken[place] = write(sink, lengths[place]);
    }
    taken
}

/// Whether a sink of two bytes, whose second and third write fail, takes what it is to.
fn takes_two(alloc: Global) -> bool {
    let mut sink = MemorySink::new(alloc, 2, &[2, 3]);
    let taken = writes(&mut sink, [3, 1, 1, 1, 0, 2]) == [2, FAILED, FAILED, 1, 0, 2];
    taken && digits(sink.written()) == 12112 && sink.faults() == 2
}

/// Whether a sink of no bytes fails where there is one to take.
fn takes_none(alloc: Global) -> bool {
    let mut sink = MemorySink::new(alloc, 0, &[]);
    let taken = writes(&mut sink, [1, 0, 1, 0, 0, 0]) == [FAILED, 0, FAILED, 0, 0, 0];
    taken && sink.faults() == 2
}

#[test]
fn sinks_that_fail(rt: HostRuntime) {
    assert!(rt; takes_two(rt.alloc()));
    assert!(rt; takes_none(rt.alloc()));
}

/// A whole text in pieces of two: what was written of it, the number of faults behind it, and `FAILED` more
/// where the text failed.
fn written(alloc: Global, failing: &[u64]) -> u64 {
    let mut sink = MemorySink::new(alloc, 2, failing);
    let failed = match write_all(&mut sink, &TEXT) {
        Ok(()) => 0,
        Err(_) => FAILED,
    };
    let text = digits(sink.written());
    text.wrapping_mul(10)
        .wrapping_add(sink.faults())
        .wrapping_add(failed)
}

#[test]
fn whole_texts(rt: HostRuntime) {
    assert!(rt; written(rt.alloc(), &[]) == 123450);
    assert!(rt; written(rt.alloc(), &[1]) == 1 + FAILED);
    assert!(rt; written(rt.alloc(), &[3]) == 12341 + FAILED);
    assert!(rt; written(rt.alloc(), &[4]) == 123450);
}

/// Whether a sink that was told two lines keeps them apart from what is written behind them.
fn tells_apart(alloc: Global) -> bool {
    let mut sink = MemorySink::new(alloc, 2, &[1]);
    sink.tell(&[7, 8]);
    sink.tell(&[9]);
    let taken = writes(&mut sink, [1, 1, 0, 0, 0, 0]) == [FAILED, 1, 0, 0, 0, 0];
    let told = digits(sink.told()) == 789 && digits(sink.written()) == 1;
    taken && told && sink.faults() == 1
}

// Lines for standard error are kept apart from what is written, and none of them fails.
#[test]
fn lines_for_standard_error(rt: HostRuntime) {
    assert!(rt; tells_apart(rt.alloc()));
}
