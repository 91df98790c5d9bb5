//! The cameras that were found so far.

ghost use Rattle.std.specs.Prelude.{◌≡◌, ◌≢◌, ◌≤◌, ◌++◌, Some, vec_capacity};
ghost use Rattle.std.specs.List.{list_any};
ghost use Rattle.gev_links.specs.Faults.{Rose};
ghost use Rattle.camera_search.specs.Asking.{MOST_CAMERAS as MOST};
ghost use Rattle.camera_search.specs.Found.{has_mac, is_new, new_among, lines_of};
ghost use Rattle.camera_search.specs.Writing.{WroteText};

use crate::DiscoveryAck;
use crate::search_end::SearchEnd;
use crate::telling::tell_camera;
use gev_links::Sink;
use std::alloc::Global;

/// The most cameras that are told.
pub(crate) const MOST_CAMERAS: usize = 256;

/// Whether one of these has this MAC address.
fn is_known(found: &[DiscoveryAck], mac: &[u8]) -> bool
    ensures { result ≡ list_any (has_mac mac.now) found.now }
{
    for camera in found {
        let known: &[u8] = &camera.mac_address;
        if known == mac {
            return true;
        }
    }
    false
}

/// Whether a camera is to be told.
fn is_new(found: &[DiscoveryAck], camera: &DiscoveryAck) -> bool
    ensures { result ≡ is_new found.now camera.now }
{
    found.len() < MOST_CAMERAS && !is_known(found, &camera.mac_address)
}

/// Keeps a camera that answered, and writes its line, where none of those before has its MAC address and there
/// are fewer than 256.
pub(crate) fn note<K: Sink>(
    alloc: Global,
    sink: &mut K,
    found: &mut Vec<DiscoveryAck>,
    told: Option<DiscoveryAck>,
) -> Option<SearchEnd>
    requires room { MOST ≤ vec_capacity found.old }
    ensures found { found.new.items ≡ found.old.items ++ new_among found.old.items told }
    ensures wrote { WroteText result (lines_of (new_among found.old.items told)) (K.written sink.old) (K.written sink.new) }
    ensures room { MOST ≤ vec_capacity found.new }
    ensures steady { result ≢ Some SearchEnd.WriteFault → K.faults sink.new ≡ K.faults sink.old }
    ensures failed { result ≡ Some SearchEnd.WriteFault → Rose (K.faults sink.old) (K.faults sink.new) }
    ensures no_link { result ≢ Some SearchEnd.LinkFault }
{
    let Some(camera) = told else {
        return None;
    };
    if !is_new(found.as_slice(), &camera) {
        return None;
    }
    found.push_reserved(camera);
    tell_camera(alloc, sink, &camera)
}
