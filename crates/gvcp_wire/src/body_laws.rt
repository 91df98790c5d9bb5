//! Laws over the definitions of the bodies. These functions do nothing: their contracts are the
//! laws.

ghost use Rattle.std.specs.Prelude.{ℕ, List};
ghost use Rattle.gvcp_wire.specs.declared.message.CommandHead.{CommandHead};
ghost use Rattle.gvcp_wire.specs.Messages.{PlainAck};
ghost use Rattle.gvcp_wire.specs.declared.resend.Resend.{Resend};
ghost use Rattle.gvcp_wire.specs.BodyLaws.{ReadsResend, WritesResend, WritesDiscovery, ReadsPending, WritesPending};

/// What is read of a command's body is the packets that the relation says, or nothing where it says
/// nothing.
pub fn resend_reading_is_the_relation()
    ensures { (head : CommandHead) (body : List ℕ) → ReadsResend head body }
{}

/// What is written of PACKETRESEND is read as that command, and its body as the same packets.
pub fn written_resend_is_read()
    ensures { (req : ℕ) (resend : Resend) → WritesResend req resend }
{}

/// What is written of DISCOVERY is read as that command.
pub fn written_discovery_is_read()
    ensures { (req : ℕ) → WritesDiscovery req }
{}

/// What is read of an acknowledge's body is the time that the relation says, or nothing where it
/// says nothing.
pub fn pending_reading_is_the_relation()
    ensures { (ack : PlainAck) → ReadsPending ack }
{}

/// The plain body of PENDING is read as its time.
pub fn written_pending_is_read()
    ensures { (ack : PlainAck) (time : ℕ) → WritesPending ack time }
{}
