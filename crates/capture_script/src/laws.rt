//! Laws of captured scripts. Each function only carries its statement.

ghost use Rattle.capture_script.specs.Laws.{DatagramsAreTold, PacketsMakeScripts, CapturesMakeScripts};
ghost use Rattle.capture_script.specs.Traces.{PacketsAreReplayed, CapturesAreReplayed};

/// The datagrams of a captured script are those of the capture to the port, in order, each at its moment; so it has one
/// just where the capture has one for it.
pub fn datagrams_are_told()
    ensures { DatagramsAreTold }
{}

/// The script of packets whose bytes are below 256 is lines of the grammar, and a script for `replay` where it has at most
/// 4,294,967,295 lines.
pub fn packets_make_scripts()
    ensures { PacketsMakeScripts }
{}

/// So is the script of any capture whose bytes are below 256.
pub fn captures_make_scripts()
    ensures { CapturesMakeScripts }
{}

/// The script of packets whose bytes are below 256, replayed, has no claim that finds the pool empty and no take that gets no
/// buffer; it takes all that is filled, in order.
pub fn packets_are_replayed()
    ensures { PacketsAreReplayed }
{}

/// So is the script of any capture whose bytes are below 256: it has no claim that finds the pool empty and no take that gets no buffer; it takes all that
/// is filled, in order.
pub fn captures_are_replayed()
    ensures { CapturesAreReplayed }
{}
