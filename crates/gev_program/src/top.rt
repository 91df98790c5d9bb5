//! The call of the program.

ghost use Rattle.std.specs.Prelude.{◌≡◌, ◌≢◌, ◌↔◌, ◌+◌, ◌≤◌, ℕ, Some, None, Ok, map, option_map, IfSome};
ghost use Rattle.std.specs.String.{string_bytes};
ghost use Rattle.board_machine.specs.Histories.{After};
ghost use Rattle.board_machine.specs.Laws.{IsAlone};
ghost use Rattle.buffer_words.specs.Boards.{board_id};
ghost use Rattle.gev_links.specs.Faults.{Rose};
ghost use Rattle.script_runs.specs.Verdicts.{IfTold};
ghost use Rattle.gev_top.specs.declared.command.Command.{Command};
ghost use Rattle.gev_top.specs.declared.command.Command.TheVariants as commands;
ghost use Rattle.gev_top.specs.declared.errand.Errand.{Errand};
ghost use Rattle.gev_top.specs.declared.errand.Errand.TheVariants as errands;
ghost use Rattle.gev_top.specs.declared.live_numbers.LiveNumbers.{LiveNumbers};
ghost use Rattle.gev_top.specs.Answers.{Answers, IsDecided, ReadsSteady};
ghost use Rattle.gev_top.specs.LiveWords.{IsErrand, IfPorts, IfCameras, errand_of, errand_fault};
ghost use Rattle.gev_top.specs.Completeness.{NoneRose, CompletesErrand};
ghost use Rattle.gev_program.specs.Runs.{IsBound, RunsOver, RecordsOver, RunsNothing};
ghost use Rattle.gev_program.specs.Cameras.{DiscoversOver, DescribesOver, RegistersOver};
ghost use Rattle.gev_program.specs.Simulation.{SimulatesSo};
ghost use Rattle.gev_program.specs.Reception.{WritesSteady};
ghost use Rattle.live_promises.specs.Over.{ReceivesSo};
ghost use Rattle.camera_words.specs.declared.access.RegisterWords.{RegisterWords};
ghost use Rattle.camera_words.specs.declared.settings.Settings.{Settings};
ghost use Rattle.camera_words.specs.declared.simulate_words.SimulateWords.{SimulateWords};
ghost use Rattle.gev_program.specs.Replayed.{ReplaysByHeadline};
ghost use Rattle.gev_program.specs.Explained.{ExplainsByHeadline};
ghost use Rattle.gev_program.specs.Doings.{Does};

use crate::meeting::{run_description, run_discover, run_register};
use crate::reception::run_receive;
use crate::recording::run_recorded;
use crate::running::run_live;
use crate::simulation::run_simulate;
use buffer_words::{Board, Pass};
use gev_far::{FarPorts, PeekLink, TimedLink};
use gev_links::{Gate, Sink, Source};
use gev_status::Status;
use gev_top::{Errand, read_errand, run_command};
use std::alloc::Global;
use std::sync::Wait;
use std::thread::Threads;

/// Does what the words say. This is what `main` calls.
///
/// `replay`, `explain`, `image`, `streams`, `capture`, `camera`, `make` and `soak` do what `plain_top` says; they make no
/// use of the ports, and nothing is kept.
///
/// `live` with a seed, a number of frames, of buffers, of lanes and of turns runs a camera, a receiver and an
/// application as threads over three links of the ports, and writes a line for each frame that was handed out. The
/// run's board and the run's pass, which is over that board, are kept, where a board was made.
///
/// `record` with a seed, a number of frames, of buffers and of turns does the same with one lane, and writes in place of
/// the lines a replay script of what the receiver heard.
///
/// `discover` with an address or none looks for cameras over a link of the ports and writes a line for each,
/// `description` with a camera's address writes the description that lies in it. Nothing is kept.
///
/// `register` with a camera's address and accesses reads and writes its registers over a link of the ports, in order, and
/// writes a line for each that was read. Nothing is kept.
///
/// `simulate` with an address of this machine and settings simulates a camera there, over a link of the ports, and
/// writes a line behind its turns. Nothing is kept.
///
/// `receive` with a camera's address, a number of frames, writes and settings takes the camera over a link of the ports,
/// receives its stream over a second one and writes what it hands out as it comes, and lets the camera go. The run's board
/// and the run's pass are kept, where a board was made.
pub fn gevacq_top<R: Threads + Wait + Sync, S: Source, K: Sink, P: FarPorts, G: Gate + Sync>(
    rt: &R,
    alloc: Global,
    words: &[String],
    source: &mut S,
    sink: &mut K,
    ports: &mut P,
    gate: &G,
    kept: &mut Option<(Board, Pass)>,
) -> Status
where
    P::L: PeekLink + TimedLink,
    requires unkept { kept.old ≡ None }

    // Words that aren't a command line are answered by their place, and nothing is read, written or bound.
    ensures usage { (place : ℕ) → (result ≡ Status.Usage place) ↔ (errand_fault (map (λ word. string_bytes word) words.now) ≡ Some place) }
    ensures unused { (place : ℕ) → errand_fault (map (λ word. string_bytes word) words.now) ≡ Some place
        → (S.left source.new ≡ S.left source.old) × (K.written sink.new ≡ K.written sink.old)
        × (S.faults source.new ≡ S.faults source.old) × (K.faults sink.new ≡ K.faults sink.old) }
    ensures unbound { (place : ℕ) → errand_fault (map (λ word. string_bytes word) words.now) ≡ Some place
        → (P.binds ports.new ≡ P.binds ports.old) × (P.bound ports.new ≡ P.bound ports.old) × (P.links ports.new ≡ P.links ports.old) × (P.clocks ports.new ≡ P.clocks ports.old)
        × (P.faults ports.new ≡ P.faults ports.old) × (kept.new ≡ None) }

    // A command is answered as `plain_top` answers it, and makes no use of the ports.
    ensures cause { (command : Command) → errand_of (map (λ word. string_bytes word) words.now) ≡ Ok (errands.Plain command)
        → Answers command result (S.left source.old) (S.left source.new) (S.faults source.old) (S.faults source.new)
        (K.written sink.old) (K.written sink.new) (K.faults sink.old) (K.faults sink.new) }
    ensures exact { (command : Command) → errand_of (map (λ word. string_bytes word) words.now) ≡ Ok (errands.Plain command)
        → IfTold (S.left source.old) (λ content. IsDecided command result content) }
    // Behind each line the trace of a replay keeps the headline, and so does that of an explanation.
    ensures headline { errand_of (map (λ word. string_bytes word) words.now) ≡ Ok (errands.Plain commands.Replay)
        → ReplaysByHeadline result (S.left source.old) (S.left source.new) (S.faults source.old) (S.faults source.new)
        (K.written sink.old) (K.written sink.new) (K.faults sink.old) (K.faults sink.new) }
    ensures explained { errand_of (map (λ word. string_bytes word) words.now) ≡ Ok (errands.Plain commands.Explain)
        → ExplainsByHeadline result (S.left source.old) (S.left source.new) (S.faults source.old) (S.faults source.new)
        (K.written sink.old) (K.written sink.new) (K.faults sink.old) (K.faults sink.new) }
    ensures plain_ports { (command : Command) → errand_of (map (λ word. string_bytes word) words.now) ≡ Ok (errands.Plain command)
        → (P.binds ports.new ≡ P.binds ports.old) × (P.bound ports.new ≡ P.bound ports.old) × (P.links ports.new ≡ P.links ports.old) × (P.clocks ports.new ≡ P.clocks ports.old)
        × (P.faults ports.new ≡ P.faults ports.old) × (kept.new ≡ None) }

    // A live run reads nothing. Where a board was made its pass is kept, which is alone and has seen the run's whole
    // history: what the run promises is said of it, the headline first, of the addresses of the links that were bound,
    // and of the links and clocks that came back.
    // Else a bind failed or memory was wanting: the links that were got came back unused, where memory was wanting with
    // three clocks, and nothing was written.
    ensures unread { (errand : Errand) → errand_of (map (λ word. string_bytes word) words.now) ≡ Ok errand
        → IfPorts errand (λ n. (S.left source.new ≡ S.left source.old) × (S.faults source.new ≡ S.faults source.old)) }
    ensures live { (n : LiveNumbers) → errand_of (map (λ word. string_bytes word) words.now) ≡ Ok (errands.Live n)
        → IfSome kept.new (λ k. IsBound (P.bound ports.old) (P.bound ports.new) (λ camera stream. RunsOver P.L.received P.L.sent P.L.faults P.C.told n camera stream result
        (P.links ports.old) (P.links ports.new) (P.clocks ports.old) (P.clocks ports.new) (K.written sink.old) (K.written sink.new) (K.faults sink.old) (K.faults sink.new) k.1.seen)) }
    // So it is of a recorded run, whose script was written in place of its lines.
    ensures recorded { (n : LiveNumbers) → errand_of (map (λ word. string_bytes word) words.now) ≡ Ok (errands.Record n)
        → IfSome kept.new (λ k. IsBound (P.bound ports.old) (P.bound ports.new) (λ camera stream. RecordsOver P.L.received P.L.sent P.L.faults P.C.told n camera stream result
        (P.links ports.old) (P.links ports.new) (P.clocks ports.old) (P.clocks ports.new) (K.written sink.old) (K.written sink.new) (K.faults sink.old) (K.faults sink.new) k.1.seen)) }
    ensures alone { IfSome kept.new (λ k. IsAlone (After k.1.seen) 0) }
    ensures own { IfSome kept.new (λ k. k.1.table ≡ board_id k.0) }
    ensures none { (errand : Errand) → errand_of (map (λ word. string_bytes word) words.now) ≡ Ok errand → kept.new ≡ None
        → IfPorts errand (λ n. RunsNothing P.L.received P.L.sent P.L.faults P.C.told result (P.binds ports.old) (P.binds ports.new) (P.links ports.old) (P.links ports.new)
        (P.clocks ports.old) (P.clocks ports.new) (K.written sink.old) (K.written sink.new) (K.faults sink.old) (K.faults sink.new)) }
    ensures few_binds { P.binds ports.new ≤ P.binds ports.old + 3 }

    // A search for cameras, and a description: what was written is what the link of the ports gave, which came back.
    // They read nothing, and nothing is kept; so of accesses to registers.
    ensures discovers { (address : ℕ) → errand_of (map (λ word. string_bytes word) words.now) ≡ Ok (errands.Discover address)
        → DiscoversOver P.L.received P.L.sent P.C.told address result (P.links ports.old) (P.links ports.new)
        (P.clocks ports.old) (P.clocks ports.new) (K.written sink.old) (K.written sink.new) }
    ensures describes { (camera : ℕ) → errand_of (map (λ word. string_bytes word) words.now) ≡ Ok (errands.Description camera)
        → DescribesOver P.L.received P.L.sent P.C.told camera result (P.links ports.old) (P.links ports.new)
        (P.clocks ports.old) (P.clocks ports.new) (K.written sink.old) (K.written sink.new) }
    ensures cameras { (errand : Errand) → errand_of (map (λ word. string_bytes word) words.now) ≡ Ok errand
        → IfCameras errand ((S.left source.new ≡ S.left source.old) × (S.faults source.new ≡ S.faults source.old) × (kept.new ≡ None)) }

    // Registers of a camera: over a link of the ports, which came back, the accesses were made in order, with control of the
    // camera where any of them writes, and the lines are what was read.
    ensures registers { (asked : RegisterWords) → errand_of (map (λ word. string_bytes word) words.now) ≡ Ok (errands.Register asked)
        → RegistersOver P.L.received P.L.sent P.C.told asked result (P.links ports.old) (P.links ports.new)
        (P.clocks ports.old) (P.clocks ports.new) (K.written sink.old) (K.written sink.new) }

    // A simulated camera: what was sent over the link of the ports, which came back, are the answers and packets of the
    // camera's machine for what was received there, and the line tells the turns that were made. Nothing is kept.
    ensures simulates { (asked : SimulateWords) → errand_of (map (λ word. string_bytes word) words.now) ≡ Ok (errands.Simulate asked)
        → SimulatesSo P.L.received P.L.sent P.L.faults P.C.told P.stands_at asked result (P.bound ports.old) (P.bound ports.new)
        (P.links ports.old) (P.links ports.new) (P.clocks ports.old) (P.clocks ports.new) (S.left source.old) (S.left source.new)
        (S.faults source.old) (S.faults source.new) (K.written sink.old) (K.written sink.new) × (kept.new ≡ None) }

    // The frames of a camera: the camera was taken and let go over one link of the ports, its stream received over another,
    // which both came back, and what was written is what was handed out. Where a board was made its pass is kept, which is
    // alone and has seen the run's whole history.
    ensures receives { (asked : Settings) → errand_of (map (λ word. string_bytes word) words.now) ≡ Ok (errands.Receive asked)
        → ReceivesSo P.L.received P.L.sent P.L.faults P.C.told asked result (P.bound ports.old) (P.bound ports.new)
        (P.links ports.old) (P.links ports.new) (P.clocks ports.old) (P.clocks ports.new) (S.left source.new)
        (K.written sink.old) (K.written sink.new) (K.faults sink.old) (K.faults sink.new) (option_map (λ k. k.1.seen) kept.new) }

    // Where no count of faults rose, each command comes to one of its own ends, or memory was wanting.
    ensures complete { (errand : Errand) → errand_of (map (λ word. string_bytes word) words.now) ≡ Ok errand
        → NoneRose (S.faults source.old) (S.faults source.new) → NoneRose (K.faults sink.old) (K.faults sink.new)
        → NoneRose (P.faults ports.old) (P.faults ports.new) → CompletesErrand errand (S.left source.old) result }

    // A count of faults changes only with the answer that tells of it; of a capture, that of the source may also
    // have changed where writing failed or memory ran out behind a read that failed, and of a camera's frames and
    // registers that of the sink where a link failed.
    ensures reads_steady { (command : Command) → errand_of (map (λ word. string_bytes word) words.now) ≡ Ok (errands.Plain command)
        → ReadsSteady command result (S.faults source.old) (S.faults source.new) }
    ensures writes_steady { (errand : Errand) → errand_of (map (λ word. string_bytes word) words.now) ≡ Ok errand
        → WritesSteady errand result (K.faults sink.old) (K.faults sink.new) }
    ensures links_steady { result ≢ Status.LinkFault → P.faults ports.new ≡ P.faults ports.old }
    ensures link_fault { result ≡ Status.LinkFault → Rose (P.faults ports.old) (P.faults ports.new) }
{
    match read_errand(words) {
        Ok(errand) => run_errand(rt, alloc, errand, source, sink, ports, gate, kept),
        Err(place) => Status::Usage { place },
    }
}

/// Does what was asked for.
fn run_errand<R: Threads + Wait + Sync, S: Source, K: Sink, P: FarPorts, G: Gate + Sync>(
    rt: &R,
    alloc: Global,
    errand: Errand,
    source: &mut S,
    sink: &mut K,
    ports: &mut P,
    gate: &G,
    kept: &mut Option<(Board, Pass)>,
) -> Status
where
    P::L: PeekLink + TimedLink,
    requires within { IsErrand errand }
    requires unkept { kept.old ≡ None }
    ensures understood { (place : ℕ) → result ≢ Status.Usage place }
    ensures does { Does (record { heard = P.L.received; sent = P.L.sent; faults = P.L.faults; told = P.C.told }) P.stands_at
        (record {
          left = S.left source.old;
          reads = S.faults source.old;
          written = K.written sink.old;
          writes = K.faults sink.old;
          binds = P.binds ports.old;
          bound = P.bound ports.old;
          links = P.links ports.old;
          clocks = P.clocks ports.old;
          failed = P.faults ports.old;
        })
        (record {
          left = S.left source.new;
          reads = S.faults source.new;
          written = K.written sink.new;
          writes = K.faults sink.new;
          binds = P.binds ports.new;
          bound = P.bound ports.new;
          links = P.links ports.new;
          clocks = P.clocks ports.new;
          failed = P.faults ports.new;
        })
        (λ k. k.1.seen) kept.new result errand }
    ensures alone { IfSome kept.new (λ k. IsAlone (After k.1.seen) 0) }
    ensures own { IfSome kept.new (λ k. k.1.table ≡ board_id k.0) }
    ensures few_binds { P.binds ports.new ≤ P.binds ports.old + 3 }
    ensures links_steady { result ≢ Status.LinkFault → P.faults ports.new ≡ P.faults ports.old }
    ensures link_fault { result ≡ Status.LinkFault → Rose (P.faults ports.old) (P.faults ports.new) }
{
    match errand {
        Errand::Plain(command) => run_command(alloc, command, source, sink),
        Errand::Live(numbers) => run_live(rt, alloc, numbers, ports, gate, sink, kept),
        Errand::Record(numbers) => run_recorded(rt, alloc, numbers, ports, gate, sink, kept),
        Errand::Discover(address) => run_discover(rt, alloc, address, ports, sink),
        Errand::Description(camera) => run_description(rt, camera, ports, sink),
        Errand::Simulate(asked) => run_simulate(rt, alloc, asked, source, ports, sink),
        Errand::Receive(settings) => {
            run_receive(rt, alloc, &settings, source, ports, gate, sink, kept)
        }
        Errand::Register(asked) => run_register(rt, &asked, ports, sink),
    }
}
