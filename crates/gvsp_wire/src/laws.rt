//! Laws of the definitions. Each function only carries its statement.

ghost use Rattle.gvsp_wire.specs.Laws.{OneAnswer, ReadingIsExact, PlainIsRead, ZeroNoticeIsRefused, PlainIsOne, PacketsHaveSpellings};
ghost use Rattle.gvsp_wire.specs.WorkedPackets.{PacketsAreWorked};

/// Any bytes are exactly one packet or have exactly one refusal, and never both.
pub fn one_answer()
    ensures { OneAnswer }
{}

/// `reading` computes what the relations `Stream` and `Refused` say.
pub fn reading_is_exact()
    ensures { ReadingIsExact }
{}

/// The plain spelling of a packet is a datagram of that packet.
pub fn plain_is_read()
    ensures { PlainIsRead }
{}

/// The plain spelling of a notice of block 0 is refused for its block.
pub fn zero_notice_is_refused()
    ensures { ZeroNoticeIsRefused }
{}

/// Two packets with one plain spelling are one.
pub fn plain_is_one()
    ensures { PlainIsOne }
{}

/// Each packet that some bytes are has a plain spelling.
pub fn packets_have_spellings()
    ensures { PacketsHaveSpellings }
{}

/// Some datagrams, and those of a frame, byte by byte: each field of a leader stands where the standard says.
pub fn packets_are_worked()
    ensures { PacketsAreWorked }
{}
