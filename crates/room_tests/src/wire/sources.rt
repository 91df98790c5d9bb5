//! Sources in memory: which reads fail, and how many bytes the others give.

use super::numbers::{FAILED, digits};
use gev_links::{MemorySource, Source, SteadySource};

/// One read into at most 8 bytes: the bytes that came, or `FAILED`.
fn read<S: Source>(source: &mut S, length: usize) -> u64 {
    let mut out = [0; 8];
    match source.read(&mut out[..length.min(8)]) {
        Ok(count) => digits(&out[..count]),
        Err(_) => FAILED,
    }
}

/// What reads of these lengths give, one after the other.
fn reads<S: Source>(source: &mut S, lengths: [usize; 7]) -> [u64; 7] {
    let mut given = [0; 7];
    for place in 0..7 {
        given[place] = read(source, lengths[place]);
    }
    given
}

const LENGTHS: [usize; 7] = [4, 4, 4, 0, 1, 4, 4];

const IN_PIECES_OF_ONE: [u64; 7] = [FAILED, 7, FAILED, 0, 8, 9, 0];

const OTHER_LENGTHS: [usize; 7] = [8, 8, 2, 8, 8, 8, 8];

const IN_PIECES_OF_FOUR: [u64; 7] = [1234, FAILED, 56, 7, FAILED, 0, 0];

/// Whether a source of single bytes, whose first and third read fail, gives what it is to.
fn gives_ones() -> bool {
    let mut source = MemorySource::new(&[7, 8, 9], 1, &[1, 3]);
    reads(&mut source, LENGTHS) == IN_PIECES_OF_ONE && source.faults() == 2
}

/// Whether a source of four bytes, whose second and fifth read fail, gives what it is to.
fn gives_fours() -> bool {
    let mut source = MemorySource::new(&[1, 2, 3, 4, 5, 6, 7], 4, &[2, 5]);
    reads(&mut source, OTHER_LENGTHS) == IN_PIECES_OF_FOUR && source.faults() == 2
}

#[test]
fn sources_that_fail(rt: HostRuntime) {
    assert!(rt; gives_ones());
    assert!(rt; gives_fours());
}

/// What reads of 8 bytes give of these bytes in pieces.
fn steady_reads(bytes: &[u8], piece: usize) -> [u64; 7] {
    reads(&mut SteadySource::new(bytes, piece), [8; 7])
}

const IN_ONES: [u64; 7] = [1, 2, 0, 0, 0, 0, 0];

const IN_FOURS: [u64; 7] = [1234, 56, 0, 0, 0, 0, 0];

// Pieces of 0 are pieces of 1.
#[test]
fn steady_sources(rt: HostRuntime) {
    assert!(rt; steady_reads(&[1, 2], 0) == IN_ONES);
    assert!(rt; steady_reads(&[1, 2], 1) == IN_ONES);
    assert!(rt; steady_reads(&[1, 2, 3, 4, 5, 6], 4) == IN_FOURS);
}

/// In which look a source has ended, of at most eight; 0 where it hasn't.
fn look_that_ends<S: Source>(source: &mut S) -> u64 {
    for look in 1..9u64 {
        if source.has_ended() {
            return look;
        }
    }
    0
}

/// Whether a look drops a piece of a source, of which a read behind it fails and the next gives the rest.
fn a_look_drops() -> bool {
    let mut source = MemorySource::new(&[7, 8, 9], 2, &[1]);
    let seen = !source.has_ended();
    let given = read(&mut source, 4) == FAILED && read(&mut source, 4) == 9;
    seen && given && source.has_ended() && source.faults() == 1
}

// A look drops a piece of what is left, and none fails.
#[test]
fn sources_that_end(rt: HostRuntime) {
    assert!(rt; a_look_drops());
    assert!(rt; look_that_ends(&mut MemorySource::new(&[7, 8, 9], 2, &[])) == 3);
    assert!(rt; look_that_ends(&mut SteadySource::new(&[1, 2], 0)) == 3);
    assert!(rt; look_that_ends(&mut SteadySource::new(&[], 4)) == 1);
}
