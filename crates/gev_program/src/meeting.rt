//! The commands that meet a camera on the network, over ports.

ghost use Rattle.std.specs.Prelude.{◌≡◌, ◌≢◌, ◌+◌, ◌≤◌, ℕ};
ghost use Rattle.gev_links.specs.Faults.{Rose};
ghost use Rattle.gev_top.specs.Completeness.{NoneRose, EndsSearch, EndsDescription, EndsRegisters};
ghost use Rattle.gev_program.specs.Cameras.{search_status, describe_status, register_status, DiscoversOver, DescribesOver, RegistersOver};

use camera_description::{DescribeEnd, fetch};
use camera_registers::{RegisterFault, register};
use camera_search::{SearchEnd, discover};
use camera_words::RegisterWords;
use gev_far::FarPorts;
use gev_links::Sink;
use gev_status::Status;
use std::alloc::Global;
use std::sync::Wait;

/// The answer by how a search ended.
fn search_status(end: SearchEnd) -> Status
    ensures { result ≡ search_status end }
{
    match end {
        SearchEnd::Done => Status::Done,
        SearchEnd::LinkFault => Status::LinkFault,
        SearchEnd::WriteFault => Status::WriteFault,
        SearchEnd::NoMemory => Status::NoMemory,
    }
}

/// The answer by how the fetch of a description ended.
fn describe_status(end: DescribeEnd) -> Status
    ensures { result ≡ describe_status end }
{
    match end {
        DescribeEnd::Done => Status::Done,
        DescribeEnd::NoDescription => Status::NoDescription,
        DescribeEnd::LinkFault => Status::LinkFault,
        DescribeEnd::WriteFault => Status::WriteFault,
        DescribeEnd::NoAnswer(req) => Status::NoAnswer { req },
        DescribeEnd::Refused(status) => Status::Refused { status },
    }
}

/// The answer by how accesses to registers went.
fn register_status(outcome: Result<(), RegisterFault>) -> Status
    ensures { result ≡ register_status outcome }
{
    match outcome {
        Ok(()) => Status::Done,
        Err(RegisterFault::LinkFault) => Status::LinkFault,
        Err(RegisterFault::WriteFault) => Status::WriteFault,
        Err(RegisterFault::NoAnswer(req)) => Status::NoAnswer { req },
        Err(RegisterFault::RefusedAt { register, status }) => {
            Status::RefusedAt { register, status }
        }
        Err(RegisterFault::Controlled) => Status::Controlled,
    }
}

/// Looks for cameras at an address.
pub(crate) fn run_discover<R: Wait, P: FarPorts, K: Sink>(
    rt: &R,
    alloc: Global,
    address: u32,
    ports: &mut P,
    sink: &mut K,
) -> Status
    ensures discovers { DiscoversOver P.L.received P.L.sent P.C.told address result (P.links ports.old) (P.links ports.new)
        (P.clocks ports.old) (P.clocks ports.new) (K.written sink.old) (K.written sink.new) }
    ensures binds { P.binds ports.new ≤ P.binds ports.old + 3 }
    ensures link_fault { result ≡ Status.LinkFault → Rose (P.faults ports.old) (P.faults ports.new) }
    ensures links_steady { result ≢ Status.LinkFault → P.faults ports.new ≡ P.faults ports.old }
    ensures writes_steady { result ≢ Status.WriteFault → K.faults sink.new ≡ K.faults sink.old }
    ensures understood { (place : ℕ) → result ≢ Status.Usage place }
    ensures complete { NoneRose (K.faults sink.old) (K.faults sink.new) → NoneRose (P.faults ports.old) (P.faults ports.new) → EndsSearch result }
{
    search_status(discover(rt, alloc, ports, sink, address))
}

/// Writes the description of the camera at an address.
pub(crate) fn run_description<R: Wait, P: FarPorts, K: Sink>(
    rt: &R,
    camera: u32,
    ports: &mut P,
    sink: &mut K,
) -> Status
    ensures describes { DescribesOver P.L.received P.L.sent P.C.told camera result (P.links ports.old) (P.links ports.new)
        (P.clocks ports.old) (P.clocks ports.new) (K.written sink.old) (K.written sink.new) }
    ensures binds { P.binds ports.new ≤ P.binds ports.old + 3 }
    ensures link_fault { result ≡ Status.LinkFault → Rose (P.faults ports.old) (P.faults ports.new) }
    ensures links_steady { result ≢ Status.LinkFault → P.faults ports.new ≡ P.faults ports.old }
    ensures writes_steady { result ≢ Status.WriteFault → K.faults sink.new ≡ K.faults sink.old }
    ensures understood { (place : ℕ) → result ≢ Status.Usage place }
    ensures complete { NoneRose (K.faults sink.old) (K.faults sink.new) → NoneRose (P.faults ports.old) (P.faults ports.new) → EndsDescription result }
{
    describe_status(fetch(rt, ports, sink, camera))
}

/// Reads and writes registers of a camera, and writes a line for each that was read.
pub(crate) fn run_register<R: Wait, P: FarPorts, K: Sink>(
    rt: &R,
    asked: &RegisterWords,
    ports: &mut P,
    sink: &mut K,
) -> Status
    ensures registers { RegistersOver P.L.received P.L.sent P.C.told asked.now result (P.links ports.old) (P.links ports.new)
        (P.clocks ports.old) (P.clocks ports.new) (K.written sink.old) (K.written sink.new) }
    ensures binds { P.binds ports.new ≤ P.binds ports.old + 3 }
    ensures link_fault { result ≡ Status.LinkFault → Rose (P.faults ports.old) (P.faults ports.new) }
    ensures links_steady { result ≢ Status.LinkFault → P.faults ports.new ≡ P.faults ports.old }
    ensures writes_steady { result ≢ Status.WriteFault → result ≢ Status.LinkFault → K.faults sink.new ≡ K.faults sink.old }
    ensures understood { (place : ℕ) → result ≢ Status.Usage place }
    ensures complete { NoneRose (K.faults sink.old) (K.faults sink.new) → NoneRose (P.faults ports.old) (P.faults ports.new) → EndsRegisters result }
{
    let outcome = register(rt, ports, sink, asked.camera, asked.accesses.as_slice());
    register_status(outcome)
}
