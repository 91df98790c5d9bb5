//! Laws over the definitions of the camera. Each function only carries its statement.

ghost use Rattle.std.specs.Prelude.{ℕ, Bool, List};
ghost use Rattle.gev_types.specs.declared.frame.Shape.{Shape};
ghost use Rattle.gev_types.specs.declared.peer.Peer.{Peer};
ghost use Rattle.gvcp_wire.specs.declared.status.Status.{Status};
ghost use Rattle.camera_machine.specs.Camera.{Camera};
ghost use Rattle.camera_machine.specs.Access.{Write};
ghost use Rattle.camera_machine.specs.Events.{Event};
ghost use Rattle.camera_machine.specs.Laws.{NewWordsAreInitial, StateSaysThePast};
ghost use Rattle.camera_machine.specs.Sending.{FramesAreGenerated, FramesAreShort, PacketsAreSent, PacketsComeInOrder, RepliesSayThePast};
ghost use Rattle.camera_machine.specs.Primary.{OnePrimary, ControlPasses, StrangerChangesNothing, RefusedWriteEnds, RepeatIsAnswered, BehindIsDropped};
ghost use Rattle.camera_machine.specs.Renewing.{CommandsRenew, OneControls};

/// At most one peer has control.
pub fn one_primary()
    ensures { (s : Camera) → OnePrimary s }
{}

/// Whatever happens, the peer that has control keeps it, or its heartbeat has run out, or its own
/// command releases it. So another peer gets control only after that.
pub fn control_passes()
    ensures { (s : Camera) (e : Event) → ControlPasses s e }
{}

/// While a peer has control and its heartbeat hasn't run out, a datagram of another peer changes
/// nothing.
pub fn stranger_changes_nothing()
    ensures { (s : Camera) → StrangerChangesNothing s }
{}

/// A write that is refused leaves every register as it was and ends its command; the writes before it
/// stay done, and count.
pub fn refused_write_ends_its_command()
    ensures { (s : Camera) (peer : Peer) (moment : ℕ) (before : List Write) (w : Write) (rest : List Write) (status : Status)
        → RefusedWriteEnds s peer moment before w rest status }
{}

/// A repeat of the primary's last executed register or memory command gets the kept acknowledge, and
/// nothing is executed.
pub fn repeat_is_answered()
    ensures { (seed : ℕ) (shape : Shape) (room : ℕ) (es : List Event) → RepeatIsAnswered seed shape room es }
{}

/// A register or memory command of the primary that is 1 to 32,767 places behind the last executed one
/// is dropped.
pub fn behind_command_is_dropped()
    ensures { (s : Camera) → BehindIsDropped s }
{}

/// The words of which nothing was written yet are the initial words.
pub fn new_words_are_initial()
    ensures { NewWordsAreInitial }
{}

/// After any events of a new camera each word holds the value of the last write executed to it, a
/// release counting as writes of 0 to CCP and SCP0, else its first value, and CCP says who has control
/// and how; the kept acknowledge is that of the last executed register or memory command since the last
/// release whose sender had control after it; the count is of the executed commands whose sender had
/// control or got it by them; and the store holds the last frames of those that were made since the
/// channel last opened.
pub fn state_says_the_past()
    ensures { (seed : ℕ) (shape : Shape) (room : ℕ) (es : List Event) → StateSaysThePast seed shape room es }
{}

/// The frames that a camera makes are the generator's, whole or short, each under its own id from 1 on,
/// and valid ones; where all were made with one shortness, they are the whole ones, or the short ones.
pub fn made_frames_are_generated()
    ensures { (seed : ℕ) (shape : Shape) (room : ℕ) (es : List Event) → FramesAreGenerated seed shape room es }
{}

/// A frame is short exactly where the latest event that set it said so: all frames are whole where no
/// event sets it, and of one shortness where the first event sets it and no other does.
pub fn frames_are_short_as_was_set()
    ensures { (seed : ℕ) (shape : Shape) (room : ℕ) (es : List Event) → FramesAreShort seed shape room es }
{}

/// Each packet that a camera gives is a sent packet of the map of frames that it made, where each frame
/// was made with one payload size and one shortness, and no command asked for packets of block 0. Without
/// the first the sizes differ, without the second two frames may have one id, and without the third a
/// notice names block 0.
pub fn given_packets_are_sent()
    ensures { (seed : ℕ) (shape : Shape) (room p : ℕ) (short : Bool) (es : List Event) → PacketsAreSent seed shape room p short es }
{}

/// The reply to a range of packets is that of the list of all frames that were made since the channel
/// last opened.
pub fn replies_say_the_past()
    ensures { (seed : ℕ) (shape : Shape) (room : ℕ) (es : List Event) → RepliesSayThePast seed shape room es }
{}

/// Each call for a packet gives the first that waits, and the others go on waiting: as many calls as
/// packets wait give them all, in order, and then nothing waits.
pub fn packets_come_in_order()
    ensures { (seed : ℕ) (shape : Shape) (room : ℕ) (es : List Event) → PacketsComeInOrder seed shape room es }
{}

/// Each command of the peer that has control renews its heartbeat: also one that is refused, one that repeats another, and
/// one whose body hasn't the form of its code.
pub fn commands_renew_the_heartbeat()
    ensures { (s : Camera) → CommandsRenew s }
{}

/// Whoever has control keeps it until it is released or its heartbeat runs out. Until then the writes of all others are
/// refused, and their datagrams change nothing.
pub fn one_controls()
    ensures { (s : Camera) → OneControls s }
{}
