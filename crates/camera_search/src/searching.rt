//! A search over a link.

ghost use Rattle.std.specs.Prelude.{◌≡◌, ◌≢◌};
ghost use Rattle.gev_links.specs.Faults.{Rose};
ghost use Rattle.camera_search.specs.CameraLine.{count_line};
ghost use Rattle.camera_search.specs.Writing.{WroteLast};
ghost use Rattle.camera_search.specs.Searched.{Searches};

use crate::asking::{ask, ask_again, is_over};
use crate::hearing::hear;
use crate::noting::{MOST_CAMERAS, note};
use crate::search_end::SearchEnd;
use crate::telling::tell_count;
use gev_links::{Clock, Link, Sink};
use gev_types::Peer;
use std::alloc::Global;
use std::sync::Wait;

/// The room of a receive, in bytes.
const RECEIVE_ROOM: usize = 9000;

/// Writes the last line, and the search is done.
fn finish<K: Sink>(alloc: Global, sink: &mut K, cameras: usize) -> SearchEnd
    ensures wrote { WroteLast result (count_line cameras) (K.written sink.old) (K.written sink.new) }
    ensures steady { result ≢ SearchEnd.WriteFault → K.faults sink.new ≡ K.faults sink.old }
    ensures failed { result ≡ SearchEnd.WriteFault → Rose (K.faults sink.old) (K.faults sink.new) }
    ensures no_link { result ≢ SearchEnd.LinkFault }
{
    match tell_count(alloc, sink, cameras) {
        Some(end) => end,
        None => SearchEnd::Done,
    }
}

/// Looks for cameras at an address: sends DISCOVERY to the peer `to` at once and again 500 milliseconds later, and
/// writes a line for each camera that answers until 1600 milliseconds are over, and then the last line. Of answers
/// with one MAC address the first counts, and at most 256 cameras are told.
///
/// Each line is written once its answer came. Memory for the cameras is taken before the first DISCOVERY, and
/// for a line when it's written.
pub fn search<R: Wait, L: Link, C: Clock, K: Sink>(
    rt: &R,
    alloc: Global,
    link: &mut L,
    clock: &mut C,
    sink: &mut K,
    to: Peer,
) -> SearchEnd
    ensures searches { Searches to
        (record { heard = L.received link.old; sent = L.sent link.old; told = C.told clock.old; written = K.written sink.old })
        (record { heard = L.received link.new; sent = L.sent link.new; told = C.told clock.new; written = K.written sink.new }) result }
    ensures link_steady { result ≢ SearchEnd.LinkFault → L.faults link.new ≡ L.faults link.old }
    ensures link_failed { result ≡ SearchEnd.LinkFault → Rose (L.faults link.old) (L.faults link.new) }
    ensures sink_steady { result ≢ SearchEnd.WriteFault → K.faults sink.new ≡ K.faults sink.old }
    ensures sink_failed { result ≡ SearchEnd.WriteFault → Rose (K.faults sink.old) (K.faults sink.new) }
{
    let begun = clock.now();
    let Ok(mut found) = Vec::with_capacity(alloc, MOST_CAMERAS) else {
        return SearchEnd::NoMemory;
    };
    let Ok(()) = ask(link, to) else {
        return SearchEnd::LinkFault;
    };
    let mut room = [0; RECEIVE_ROOM];
    let mut again = false;
    'turns: for _ in rt.forever() {
        let moment = clock.now();
        if is_over(begun, moment) {
            return finish(alloc, sink, found.len());
        }
        let Ok(()) = ask_again(link, to, begun, moment, &mut again) else {
            return SearchEnd::LinkFault;
        };
        let Ok(told) = hear(link, &mut room) else {
            return SearchEnd::LinkFault;
        };
        match note(alloc, sink, &mut found, told) {
            Some(end) => return end,
            None => {}
        }
    }
    unreachable!()
}
