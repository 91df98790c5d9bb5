//! Laws over the definitions of worlds. These functions do nothing: their contracts are the laws.

ghost use Rattle.std.specs.Prelude.{ℕ, List};
ghost use Rattle.gev_types.specs.declared.frame.Shape.{Shape};
ghost use Rattle.gev_types.specs.declared.peer.Peer.{Peer};
ghost use Rattle.world_machine.specs.State.{Host, Run};
ghost use Rattle.world_laws.specs.Schedule.{WorldEvent};
ghost use Rattle.world_laws.specs.RunEvents.{Application};
ghost use Rattle.world_laws.specs.RunLaws.{RunIsAWorld, SoakIsAnApplication, RunImagesAreTrue};
ghost use Rattle.world_machine.specs.ClientTurn.{End};
ghost use Rattle.world_laws.specs.TakeLines.{TextHasTakeLines};
ghost use Rattle.world_laws.specs.Laws.{CommandsActOnce, TraceKeepsPromises, ScheduleHasATrace, HeardImagesAreTrue, GivenPacketsAreHeard, ImagesAreTrue, PacketsAreOfMadeFrames, ImagesAreOfMadeFrames};

/// The register and memory commands that a session executed for its primary are without repeats, and
/// in the order in which the client submitted them, while it submitted fewer than 32,767.
pub fn commands_of_a_world_act_once()
    ensures { (seed : ℕ) (shape : Shape) (room : ℕ) (peer : Peer) (es : List WorldEvent) → CommandsActOnce seed shape room peer es }
{}

/// The receiver of each schedule has a history: its lines lead to a trace, whatever its application asks for
/// and whatever arrives.
pub fn schedule_has_a_trace()
    ensures { (seed : ℕ) (shape : Shape) (room : ℕ) (peer : Peer) (es : List WorldEvent) → ScheduleHasATrace seed shape room peer es }
{}

/// The receiver's history is the board machine's, each buffer has one owner at each step of it, and
/// filled buffers are handed out once, in the order of their fills, none after a close. What is filled
/// are the blocks that retire with a buffer, all and in order.
pub fn trace_of_a_world_keeps_promises()
    ensures { (seed : ℕ) (shape : Shape) (room : ℕ) (peer : Peer) (es : List WorldEvent) → TraceKeepsPromises seed shape room peer es }
{}

/// Where the receiver hears packets of one map of frames, in one payload size, each buffer that was
/// filled, handed out or not, is its block's frame or isn't marked complete; each received byte is in
/// place, and 0 elsewhere; the image that it tells is that frame's; and in a large enough buffer it's
/// marked complete where all packets came before it retired. Buffers with the empty record, which no block filled, are left out.
pub fn heard_images_are_true()
    ensures { (seed : ℕ) (shape : Shape) (room : ℕ) (peer : Peer) (es : List WorldEvent) → HeardImagesAreTrue seed shape room peer es }
{}

/// Where the camera gave packets of one map of frames, that is what the receiver hears.
pub fn given_packets_are_heard()
    ensures { (seed : ℕ) (shape : Shape) (room : ℕ) (peer : Peer) (es : List WorldEvent) → GivenPacketsAreHeard seed shape room peer es }
{}

/// So each buffer that was filled holds what came of its block's frame.
pub fn images_of_a_world_are_true()
    ensures { (seed : ℕ) (shape : Shape) (room : ℕ) (peer : Peer) (es : List WorldEvent) → ImagesAreTrue seed shape room peer es }
{}

/// The packets that a camera gave are of the frames that it made, and these are the generator's, where
/// all have one payload size, all are short ones or none is, and no command asked for packets of block 0.
pub fn packets_are_of_made_frames()
    ensures { (seed : ℕ) (shape : Shape) (room : ℕ) (es : List WorldEvent) → PacketsAreOfMadeFrames seed shape room es }
{}

/// So each buffer that was filled, handed out or not, holds what came of a frame that the camera made,
/// or has the empty record; and one that is marked complete holds the generator's image of its block, short
/// where frames are short.
pub fn images_are_of_made_frames()
    ensures { (seed : ℕ) (shape : Shape) (room : ℕ) (peer : Peer) (es : List WorldEvent) → ImagesAreOfMadeFrames seed shape room peer es }
{}

/// A soak run is a schedule of a world: its events do to the client and the camera what its rounds did,
/// and to the host what its acts and its application did. `A` is what a host is.
pub fn run_is_a_world<A>()
    ensures { (run : Run) (host : Host A) (app : Application A) (start : A) (n : ℕ) → RunIsAWorld run host app start n }
{}

/// The lines of a soak run's application are an application's.
pub fn soak_is_an_application()
    ensures { SoakIsAnApplication }
{}

/// Where a run's host hears packets of frames of the run's seed, each buffer that was filled, handed out
/// or not, holds what came of one, or has the empty record; and one that is marked complete holds the
/// generator's image of its block, short in a short run.
pub fn images_of_a_run_are_true<A>()
    ensures { (run : Run) (host : Host A) (app : Application A) (start : A) (n : ℕ) → RunImagesAreTrue run host app start n }
{}

/// The text of such a run is take lines, and then its last line, if it has one. A take line with
/// `complete=1` has the digest of the image that the generator makes of the run's seed and the block's
/// id, short in a short run.
pub fn text_of_a_run_has_take_lines()
    ensures { (run : Run) (text : List ℕ) (e : End) (n : ℕ) → TextHasTakeLines run text e n }
{}
