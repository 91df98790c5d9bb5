//! Lines, written as soon as they're known.

ghost use Rattle.std.specs.Prelude.{◌≡◌, ◌≢◌, Some};
ghost use Rattle.gev_links.specs.Faults.{Rose};
ghost use Rattle.camera_search.specs.CameraLine.{camera_line, count_line};
ghost use Rattle.camera_search.specs.Writing.{WroteText};

use crate::search_end::SearchEnd;
use crate::{DiscoveryAck, add_camera, add_count};
use gev_links::{Sink, write_all};
use std::alloc::Global;

/// Writes a text whole, or answers how the search ends.
fn write_text<K: Sink>(sink: &mut K, text: &[u8]) -> Option<SearchEnd>
    ensures wrote { WroteText result text.now (K.written sink.old) (K.written sink.new) }
    ensures steady { result ≢ Some SearchEnd.WriteFault → K.faults sink.new ≡ K.faults sink.old }
    ensures failed { result ≡ Some SearchEnd.WriteFault → Rose (K.faults sink.old) (K.faults sink.new) }
    ensures no_link { result ≢ Some SearchEnd.LinkFault }
{
    match write_all(sink, text) {
        Ok(()) => None,
        Err(_) => Some(SearchEnd::WriteFault),
    }
}

/// Writes the line of a camera.
pub(crate) fn tell_camera<K: Sink>(
    alloc: Global,
    sink: &mut K,
    camera: &DiscoveryAck,
) -> Option<SearchEnd>
    ensures wrote { WroteText result (camera_line camera.now) (K.written sink.old) (K.written sink.new) }
    ensures steady { result ≢ Some SearchEnd.WriteFault → K.faults sink.new ≡ K.faults sink.old }
    ensures failed { result ≡ Some SearchEnd.WriteFault → Rose (K.faults sink.old) (K.faults sink.new) }
    ensures no_link { result ≢ Some SearchEnd.LinkFault }
{
    let mut out = Vec::new(alloc);
    match add_camera(&mut out, camera) {
        Ok(()) => write_text(sink, out.as_slice()),
        Err(_) => Some(SearchEnd::NoMemory),
    }
}

/// Writes the last line, behind those of so many cameras.
pub(crate) fn tell_count<K: Sink>(alloc: Global, sink: &mut K, cameras: usize) -> Option<SearchEnd>
    ensures wrote { WroteText result (count_line cameras) (K.written sink.old) (K.written sink.new) }
    ensures steady { result ≢ Some SearchEnd.WriteFault → K.faults sink.new ≡ K.faults sink.old }
    ensures failed { result ≡ Some SearchEnd.WriteFault → Rose (K.faults sink.old) (K.faults sink.new) }
    ensures no_link { result ≢ Some SearchEnd.LinkFault }
{
    let mut out = Vec::new(alloc);
    match add_count(&mut out, cameras) {
        Ok(()) => write_text(sink, out.as_slice()),
        Err(_) => Some(SearchEnd::NoMemory),
    }
}
