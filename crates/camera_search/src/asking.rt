//! DISCOVERY, sent at its moments.

ghost use Rattle.std.specs.Prelude.{◌≡◌, ◌||◌, true, false, OnOk, OnErr};
ghost use Rattle.gev_links.specs.Faults.{Rose};
ghost use Rattle.gev_links.specs.Links.{Adds};
ghost use Rattle.camera_search.specs.Asking.{asked, is_over, is_second, more_sends};

use gev_links::{Failed, Link};
use gev_types::Peer;
use gvcp_wire::write_discovery;

/// The request number of each DISCOVERY.
pub(crate) const REQUEST: u16 = 65_535;

/// How many milliseconds after the first DISCOVERY the second one comes.
const SECOND_SEND: u64 = 500;

/// How many milliseconds after the first DISCOVERY the search ends.
const SEARCH_TIME: u64 = 1600;

/// Whether the search that began at a moment is over at this one.
pub(crate) fn is_over(begun: u64, moment: u64) -> bool
    ensures { result ≡ is_over begun moment }
{
    moment.saturating_sub(begun) >= SEARCH_TIME
}

/// Whether the second DISCOVERY is due.
fn is_second(begun: u64, moment: u64) -> bool
    ensures { result ≡ is_second begun moment }
{
    moment.saturating_sub(begun) >= SECOND_SEND
}

/// Sends DISCOVERY.
pub(crate) fn ask<L: Link>(link: &mut L, to: Peer) -> Result<(), Failed>
    ensures sent { OnOk result (Adds (L.sent link.old) (L.sent link.new) (asked to 1)) }
    ensures unsent { OnErr result (L.sent link.new ≡ L.sent link.old) }
    ensures received { L.received link.new ≡ L.received link.old }
    ensures no_fault { OnOk result (L.faults link.new ≡ L.faults link.old) }
    ensures failed { OnErr result (Rose (L.faults link.old) (L.faults link.new)) }
{
    let mut datagram = [0; 8];
    write_discovery(&mut datagram, REQUEST);
    link.send(to, &datagram)
}

/// Sends the second DISCOVERY where it is due and wasn't sent `again` before.
pub(crate) fn ask_again<L: Link>(
    link: &mut L,
    to: Peer,
    begun: u64,
    moment: u64,
    again: &mut bool,
) -> Result<(), Failed>
    ensures sent { OnOk result (Adds (L.sent link.old) (L.sent link.new) (asked to (more_sends again.old (is_second begun moment)))) }
    ensures again { OnOk result (again.new ≡ (again.old || is_second begun moment)) }
    ensures unsent { OnErr result (L.sent link.new ≡ L.sent link.old) }
    ensures was_due { OnErr result (is_second begun moment ≡ true) }
    ensures first { OnErr result (again.old ≡ false) }
    ensures received { L.received link.new ≡ L.received link.old }
    ensures no_fault { OnOk result (L.faults link.new ≡ L.faults link.old) }
    ensures failed { OnErr result (Rose (L.faults link.old) (L.faults link.new)) }
{
    if *again {
        return Ok(());
    }
    if !is_second(begun, moment) {
        return Ok(());
    }
    ask(link, to)?;
    *again = true;
    Ok(())
}
