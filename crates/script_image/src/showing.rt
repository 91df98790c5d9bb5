//! A script whose pictures are written, line by line.

ghost use Rattle.std.specs.Prelude.{◌≡◌, ◌≢◌, ◌≤◌, ◌||◌, [], length, Some, IfOk};
ghost use Rattle.script_replay.specs.Replays.{IsKept, RefusesAs};
ghost use Rattle.script_image.specs.Taking.{beginning};
ghost use Rattle.script_image.specs.Ends.{IsInRange};
ghost use Rattle.script_image.specs.Steps.{StepsAs};
ghost use Rattle.script_image.specs.Showing.{IsShowing, IsShowingSome, LiesAt, DrawsIn, ShowsTaken, ComesAs, is_done, stop_by, last_end, stopped};

use crate::came::Came;
use crate::drawing::draw;
use crate::image_end::ImageEnd;
use crate::lines::run_later;
use crate::wanted::Wanted;
use frame_pictures::NoPicture;
use gev_links::Sink;
use gev_types::NoMemory;
use script_replay::{DatagramRooms, Script, first_line};
use script_runs::{Headed, Stop, run_headed};
use std::alloc::Global;
use std::marker::Model;

/// What lines are run in.
#[derive(Drop)]
struct Viewer {
    rooms: DatagramRooms,
}

impl Headed for Viewer {
    type Script = Script;

    type Came = Came;

    ghost is_kept = { λ _. IsKept };

    ghost runs = { λ viewer old n line came out new_viewer new. StepsAs came old line new };

    ghost refuses = { RefusesAs };

    fn begin(&self, alloc: Global, line: &[u8]) -> Result<(Script, Came), Stop> {
        Ok((first_line(alloc, line)?, Came::On))
    }

    fn go_on(
        &mut self,
        alloc: Global,
        script: &mut Script,
        _number: u32,
        line: &[u8],
        out: &mut Vec<u8>,
    ) -> Result<Came, Stop> {
        let came = run_later(alloc, script, &mut self.rooms, line, out)?;
        Ok(came)
    }
}

/// A replay script that runs, the pictures that are wanted of it, and what was taken and shown so far.
#[derive(Drop)]
pub(crate) struct Showing {
    /// None while the header is still to come.
    script: Option<Script>,
    /// What its lines are run in.
    viewer: Viewer,
    /// Which pictures are wanted.
    wanted: Wanted,
    /// Buffers that were taken.
    taken: u32,
    /// Whether a picture was written.
    shown: bool,
}

impl Model for Showing {
    ghost use Rattle.script_replay.specs.Replays.{IsKept};
    ghost use Rattle.script_image.specs.Showing.{ShowingState, IsBelow};

    ghost Value = { ShowingState };

    ghost view = { λ s. record { script = s.script; wanted = s.wanted; taken = s.taken; shown = s.shown } };

    ghost invariant = { λ s. IsKept s.script × IsBelow s.wanted s.taken };
}

impl Showing {
    /// The state before the first line. Reserves the room for the bytes of a datagram.
    #[tactic(auto, using(crate::proofs::Shows::begins, crate::proofs::Shows::below_first))]
    pub(crate) fn new(alloc: Global, wanted: Wanted) -> Result<Showing, NoMemory>
        requires some { IsInRange wanted }
        ensures wanted { IfOk result (λ showing. showing.wanted ≡ wanted) }
        ensures stands { IfOk result (λ showing. IsShowing wanted [] showing beginning) }
    {
        let rooms = DatagramRooms::new(alloc)?;
        Ok(Showing {
            script: None,
            viewer: Viewer { rooms },
            wanted,
            taken: 0,
            shown: false,
        })
    }
}

/// The end behind the last line.
fn last_end(wanted: Wanted, taken: u32, shown: bool) -> ImageEnd
    ensures { result ≡ last_end wanted taken shown }
{
    match (wanted, shown) {
        (Wanted::One(_number), _) => ImageEnd::NoPicture(NoPicture::Taken(taken)),
        (Wanted::All, true) => ImageEnd::Done,
        (Wanted::All, false) => {
            if taken == 0 {
                ImageEnd::NoPicture(NoPicture::Taken(0))
            } else {
                ImageEnd::NoPicture(NoPicture::NoneOf(taken))
            }
        }
    }
}

/// Writes the picture of the buffer at this place of the script's board.
fn draw_at<K: Sink>(alloc: Global, script: &Option<Script>, place: u8, sink: &mut K) -> ImageEnd
    requires lies { LiesAt place script.now }
    ensures { DrawsIn result script.now place (K.written sink.old) (K.written sink.new) (K.faults sink.old) (K.faults sink.new) }
{
    match script {
        Some(script) => draw(alloc, &script.running.board, place, sink),
        None => unreachable!(),
    }
}

/// Whether the picture was written.
fn is_done(end: ImageEnd) -> bool
    ensures { result ≡ is_done end }
{
    match end {
        ImageEnd::Done => true,
        _ => false,
    }
}

/// Whether a picture was written behind one that was written so.
fn has_shown(before: bool, end: ImageEnd) -> bool
    ensures { result ≡ (before || is_done end) }
{
    if before { true } else { is_done(end) }
}

/// The end of a run for all pictures by how one was written. One that there isn't is passed over.
fn stop_by(end: ImageEnd) -> Option<ImageEnd>
    ensures { result ≡ stop_by end }
{
    match end {
        ImageEnd::Done => None,
        ImageEnd::NoPicture(_why) => None,
        other => Some(other),
    }
}

/// Counts the buffer that was taken, and writes its picture and ends if it's the wanted one.
#[tactic(auto, using(crate::proofs::Shows::one_last, crate::proofs::Shows::one_on, crate::proofs::Shows::below_one, crate::proofs::Shows::below_next))]
fn take_one<K: Sink>(
    alloc: Global,
    showing: &mut Showing,
    number: u32,
    place: u8,
    sink: &mut K,
) -> Option<ImageEnd>
    requires wanted { showing.old.wanted ≡ Wanted.One number }
    requires lies { LiesAt place showing.old.script }
    ensures { ShowsTaken result showing.old showing.new place (K.written sink.old) (K.written sink.new) (K.faults sink.old) (K.faults sink.new) }
{
    if showing.taken + 1 == number {
        return Some(draw_at(alloc, &showing.script, place, sink));
    }
    showing.taken += 1;
    None
}

/// Counts the buffer that was taken, and writes its picture, if it has one. The answer is the end, if writing failed.
#[tactic(auto, using(crate::proofs::Shows::each_on, crate::proofs::Shows::below_all))]
fn take_each<K: Sink>(
    alloc: Global,
    showing: &mut Showing,
    place: u8,
    sink: &mut K,
) -> Option<ImageEnd>
    requires wanted { showing.old.wanted ≡ Wanted.All }
    requires lies { LiesAt place showing.old.script }
    ensures { ShowsTaken result showing.old showing.new place (K.written sink.old) (K.written sink.new) (K.faults sink.old) (K.faults sink.new) }
{
    let end = draw_at(alloc, &showing.script, place, sink);
    showing.taken = showing.taken.saturating_add(1);
    showing.shown = has_shown(showing.shown, end);
    stop_by(end)
}

/// Shows what a `take` line got, by what is wanted. The answer is the end, if the run doesn't go on.
fn show_taken<K: Sink>(
    alloc: Global,
    showing: &mut Showing,
    place: u8,
    sink: &mut K,
) -> Option<ImageEnd>
    requires lies { LiesAt place showing.old.script }
    ensures { ShowsTaken result showing.old showing.new place (K.written sink.old) (K.written sink.new) (K.faults sink.old) (K.faults sink.new) }
{
    match showing.wanted {
        Wanted::One(number) => take_one(alloc, showing, number, place, sink),
        Wanted::All => take_each(alloc, showing, place, sink),
    }
}

/// The end where the line with this number wasn't run.
fn stopped(number: u32, stop: Stop) -> ImageEnd
    ensures { result ≡ stopped number stop }
{
    match stop {
        Stop::Refused(kind) => ImageEnd::BadLine {
            line: u64::from(number),
            kind,
        },
        Stop::NoMemory => ImageEnd::NoMemory,
    }
}

/// Runs the line with this number, and shows what it gets. The answer is the end, if the run doesn't go on. The line's
/// report is added to the empty `report`, for nobody.
#[tactic(auto, using(crate::proofs::Shows::shows_steady, crate::proofs::Shows::shows_read, crate::proofs::Shows::last_read, crate::proofs::Shows::stopped_read))]
pub(crate) fn show_line<K: Sink>(
    alloc: Global,
    showing: &mut Showing,
    number: u32,
    line: &[u8],
    report: &mut Vec<u8>,
    sink: &mut K,
) -> Option<ImageEnd>
    requires stands { IsShowingSome showing.old }
    requires short { length line.now ≤ 20000 }
    requires empty { report.old.items ≡ [] }
    ensures comes { ComesAs result showing.old showing.new number line.now (K.written sink.old) (K.written sink.new) (K.faults sink.old) (K.faults sink.new) }
    ensures steady { result ≢ Some ImageEnd.WriteFault → K.faults sink.new ≡ K.faults sink.old }
    ensures read { result ≢ Some ImageEnd.ReadFault }
{
    match run_headed(
        alloc,
        &mut showing.viewer,
        &mut showing.script,
        number,
        line,
        report,
    ) {
        Ok(Came::On) => None,
        Ok(Came::Took(place)) => show_taken(alloc, showing, place, sink),
        Ok(Came::End) => Some(last_end(showing.wanted, showing.taken, showing.shown)),
        Err(stop) => Some(stopped(number, stop)),
    }
}
