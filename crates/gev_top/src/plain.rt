ghost use Rattle.std.specs.Prelude.{◌≡◌, ◌≢◌, ◌↔◌, ℕ, Some, Ok, map};
ghost use Rattle.std.specs.String.{string_bytes};
ghost use Rattle.script_runs.specs.Verdicts.{IfTold};
ghost use Rattle.gev_top.specs.declared.command.Command.{Command};
ghost use Rattle.gev_top.specs.Answers.{Answers, IsDecided, ReadsSteady};
ghost use Rattle.gev_top.specs.Completeness.{NoneRose, Completes};
ghost use Rattle.gev_top.specs.Usage.{command_of, usage_fault, IsInRange};

use crate::capturing::{capture, streams};
use crate::command::Command;
use crate::imaging::image;
use crate::making::make_script;
use crate::scripts::{camera, explain, replay};
use crate::soaking::soak;
use crate::usage::read_words;
use gev_links::{Sink, Source};
use gev_status::Status;
use std::alloc::Global;

/// Does what the words say.
///
/// `replay` runs the replay script that the source gives, and writes its report to the sink. Each line is
/// run as it's read, and its report is written before the next line is read. Memory doesn't grow with the
/// script but by the buffers that it announces.
///
/// `explain` runs the same script in the same way, and writes before the report of each line what the line tells of
/// lost frames and of datagrams that are in no image, in lines that begin with `# `.
///
/// `image` with a number k runs the same script up to the k-th buffer that its `take` lines get, and writes a picture of
/// that one in place of the report; with `all` it runs it to its end, and writes the pictures of all that have one.
///
/// `streams` reads a capture of a network, a pcap or a pcapng file, and writes a line for each image stream in
/// it, and an end line.
///
/// `capture` with a port, the most bytes of a payload and the bytes of a buffer reads a capture too, and writes a
/// replay script of the datagrams to that port.
///
/// `camera` runs the camera script that the source gives in the same way: its report is what a simulated
/// camera answers and sends.
///
/// `make` with a seed, a number of frames and the rates of loss, repeats and swaps writes a replay script
/// to the sink.
///
/// `soak` with the same numbers runs a camera, a network and a host as one machine, and writes a line for
/// each buffer that the host takes, and what it counted. With the further word `short` the camera's images
/// have up to seven lines fewer than their leaders announce. Memory grows with the rates, not with the
/// number of frames.
pub fn plain_top<S: Source, K: Sink>(
    alloc: Global,
    words: &[String],
    source: &mut S,
    sink: &mut K,
) -> Status
    // Words that aren't a command line are answered by their place, and nothing is read or written.
    ensures usage { (place : ℕ) → (result ≡ Status.Usage place) ↔ (usage_fault (map (λ word. string_bytes word) words.now) ≡ Some place) }
    ensures unused { (place : ℕ) → usage_fault (map (λ word. string_bytes word) words.now) ≡ Some place
        → (S.left source.new ≡ S.left source.old) × (K.written sink.new ≡ K.written sink.old)
        × (S.faults source.new ≡ S.faults source.old) × (K.faults sink.new ≡ K.faults sink.old) }

    // Each other answer has its cause. Of a script: which lines were run, what was written, and whose count
    // of faults rose. The bytes that a replay writes are the report of one trace, which keeps its promises:
    // under each map of frames from which the datagrams were sent, an image that is marked complete is its
    // block's frame. Those that an explanation writes are such a report with notes between its lines, which account
    // for each datagram and each block. A picture is that of the buffer which is taken, by its record and bytes alone;
    // where all are wanted, they stand in the order in which their buffers were taken. Those that a camera script
    // writes for a line are what the line's events print, of a camera of which at most one peer has control. Of a
    // script that is made: it was written whole, or a front of it. Of a capture: the text that lists the streams of
    // its packets, or the script of those to one port, was written, up to the record that is refused, if one is. Of a
    // soak run: its text was written, or a front of it, the answer is the run's end, its receiver's history keeps
    // the promises of a trace, each image that is marked complete is the generator's, and its commands act once.
    ensures cause { (command : Command) → command_of (map (λ word. string_bytes word) words.now) ≡ Ok command
        → Answers command result (S.left source.old) (S.left source.new) (S.faults source.old) (S.faults source.new)
        (K.written sink.old) (K.written sink.new) (K.faults sink.old) (K.faults sink.new) }

    // Where the source tells what it holds, its bytes decide, but for faults and want of memory.
    ensures exact { (command : Command) → command_of (map (λ word. string_bytes word) words.now) ≡ Ok command
        → IfTold (S.left source.old) (λ content. IsDecided command result content) }

    // Where neither count of faults rose, each command comes to one of its own ends, or memory was wanting.
    ensures complete { (command : Command) → command_of (map (λ word. string_bytes word) words.now) ≡ Ok command
        → NoneRose (S.faults source.old) (S.faults source.new) → NoneRose (K.faults sink.old) (K.faults sink.new)
        → Completes command (S.left source.old) result }

    // A count of faults changes only with the answer that tells of it; of a capture, that of the source may also
    // have changed where writing failed or memory ran out behind a read that failed.
    ensures reads_steady { (command : Command) → command_of (map (λ word. string_bytes word) words.now) ≡ Ok command
        → ReadsSteady command result (S.faults source.old) (S.faults source.new) }
    ensures writes_steady { result ≢ Status.WriteFault → K.faults sink.new ≡ K.faults sink.old }
{
    match read_words(words) {
        Ok(command) => run_command(alloc, command, source, sink),
        Err(place) => Status::Usage { place },
    }
}

/// Does what the command says, as `plain_top` for its words.
pub fn run_command<S: Source, K: Sink>(
    alloc: Global,
    command: Command,
    source: &mut S,
    sink: &mut K,
) -> Status
    requires { IsInRange command }
    ensures understood { (place : ℕ) → result ≢ Status.Usage place }
    ensures cause { Answers command result (S.left source.old) (S.left source.new) (S.faults source.old) (S.faults source.new)
        (K.written sink.old) (K.written sink.new) (K.faults sink.old) (K.faults sink.new) }
    ensures exact { IfTold (S.left source.old) (λ content. IsDecided command result content) }
    ensures reads_steady { ReadsSteady command result (S.faults source.old) (S.faults source.new) }
    ensures writes_steady { result ≢ Status.WriteFault → K.faults sink.new ≡ K.faults sink.old }
{
    match command {
        Command::Replay => replay(alloc, source, sink),
        Command::Explain => explain(alloc, source, sink),
        Command::Image { wanted } => image(alloc, wanted, source, sink),
        Command::Streams => streams(alloc, source, sink),
        Command::Capture { port, p, bytes } => capture(alloc, port, p, bytes, source, sink),
        Command::Camera => camera(alloc, source, sink),
        Command::Make {
            seed,
            frames,
            rates,
        } => make_script(alloc, seed, frames, rates, sink),
        Command::Soak {
            seed,
            frames,
            rates,
            short,
        } => soak(alloc, seed, frames, rates, short, sink),
    }
}
