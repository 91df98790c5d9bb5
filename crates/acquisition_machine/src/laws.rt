//! What the definitions promise: each function here does nothing, and its contract is a law.

ghost use Rattle.acquisition_machine.specs.Laws.{RunsAreJoined, StepsKeepOrder, BlocksAreInOrder, BoundNeverFalls, BlocksRetireInOrder};
ghost use Rattle.acquisition_machine.specs.TurnLaws.{CausesAreTrue, MachineSettles, TurnsAreCounted, ClaimsFollowBuffer, AsksOnce, FillsHaveSizes, NoBufferIsLost};
ghost use Rattle.acquisition_machine.specs.RequestLaws.{RequestsAreMissing, RequestsAreFew, RoundsAreFew};
ghost use Rattle.acquisition_machine.specs.FrameLaws.{FillsAreImages, HeardIsWhatCame, RetiredHeardWhatCame, FillsKeepFrames};
ghost use Rattle.acquisition_machine.specs.WorkedLaws.{BlocksAreWorked, TimesAreWorked};

/// Runs of lists that are joined: states, retirements, requests and packets go on where the first list ends.
pub fn runs_are_joined()
    ensures { RunsAreJoined }
{}

/// Each input keeps the order of the open blocks, their number, and what is known of a claim.
pub fn steps_keep_order()
    ensures { StepsKeepOrder }
{}

/// After any inputs the open blocks are in order, none below the floor, and at most as many as the
/// window has; and a block for which a buffer is claimed may be opened.
pub fn blocks_are_in_order()
    ensures { BlocksAreInOrder }
{}

/// Within an acquisition the bound never falls.
pub fn bound_never_falls()
    ensures { BoundNeverFalls }
{}

/// Within an acquisition blocks retire in the order of their ids, so none retires twice.
pub fn blocks_retire_in_order()
    ensures { BlocksRetireInOrder }
{}

/// Each retirement names one of the four causes, which is true of the block as it was.
pub fn causes_are_true()
    ensures { CausesAreTrue }
{}

/// After a kept packet and after each moment the lowest open block is neither complete nor old.
pub fn machine_settles()
    ensures { MachineSettles }
{}

/// Each datagram is answered. One that is ignored raises the count of its reason by one, and one that
/// is kept or wants a buffer raises none.
pub fn turns_are_counted()
    ensures { TurnsAreCounted }
{}

/// A claim is awaited exactly after a datagram that wants a buffer.
pub fn claims_follow_buffer()
    ensures { ClaimsFollowBuffer }
{}

/// After the claim's outcome the same datagram is kept, or ignored where there was no buffer.
pub fn asks_once()
    ensures { AsksOnce }
{}

/// Each fill has the place of its block's buffer, and as many bytes.
pub fn fills_have_sizes()
    ensures { FillsHaveSizes }
{}

/// No input loses a buffer or doubles one.
pub fn no_buffer_is_lost()
    ensures { NoBufferIsLost }
{}

/// Each request names a maximal range of ids that have no kept packet and no recorded notice.
pub fn requests_are_missing()
    ensures { RequestsAreMissing }
{}

/// At most eight ranges of a block are asked for at once.
pub fn requests_are_few()
    ensures { RequestsAreFew }
{}

/// No block asks more often than it may.
pub fn rounds_are_few()
    ensures { RoundsAreFew }
{}

/// Each open block holds the packets of its id that came since the claim that opened it.
pub fn heard_is_what_came()
    ensures { HeardIsWhatCame }
{}

/// So does each block as it was when it retired.
pub fn retired_heard_what_came()
    ensures { RetiredHeardWhatCame }
{}

/// Each fill is the image of the packets of its block that came from its claim on.
pub fn fills_are_images()
    ensures { FillsAreImages }
{}

/// Under a map of frames a fill that is marked complete is its block's frame; in any fill each
/// received byte is in place, and 0 elsewhere, and the image that its record tells is that frame's; and
/// where the buffer was large enough and all packets came, it is marked complete.
pub fn fills_keep_frames()
    ensures { FillsKeepFrames }
{}

/// Lists of inputs that are written out, from the bytes of the datagrams to the filled buffers.
pub fn blocks_are_worked()
    ensures { BlocksAreWorked }
{}

/// Such lists in which blocks grow old and missing packets are asked for.
pub fn times_are_worked()
    ensures { TimesAreWorked }
{}
