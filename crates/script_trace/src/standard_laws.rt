//! Laws of narrowed scripts. Each function only carries its statement.

ghost use Rattle.script_trace.specs.Narrowing.{NarrowedRunAlike};

/// Where the datagrams of a script's lines are narrowed, version 2 leads to the trace that the lines themselves lead
/// to: the same entries, inputs, handles and idle datagrams. While the stream runs, each is of a packet that its 16
/// bits stand for; while it doesn't, a datagram may have any bytes in both.
/// No datagram is refused, and the report is the same but for lines that begin with `request `; where no line is
/// `t` there are none.
pub fn narrowed_scripts_run_alike()
    ensures { NarrowedRunAlike }
{}
