//! The system's clock begins at 0 and never goes back.

use gev_links::{Clock, Ports};
use gev_real::RealPorts;

/// Whether this clock tells 0 first, and then a hundred times nothing that lies before what it told.
fn goes_on<C: Clock>(clock: &mut C) -> bool {
    let mut last = clock.now();
    if last != 0 {
        return false;
    }
    for _ in 0..100 {
        let moment = clock.now();
        if moment < last {
            return false;
        }
        last = moment;
    }
    true
}

#[test]
fn the_clock_goes_on(rt: HostRuntime) {
    let mut ports = RealPorts::new(&rt);
    let mut clock = ports.clock();
    let goes = goes_on(&mut clock);
    ports.unclock(clock);
    assert!(rt; goes);
}
