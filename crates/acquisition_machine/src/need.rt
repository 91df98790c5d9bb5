use gvsp_wire::WireError;
use std::fmt;

/// Why nothing of a datagram was kept.
#[derive(Clone, Copy, Debug, PartialEq, Eq)]
pub enum Why {
    /// It is no packet of the stream.
    Foreign(WireError),
    /// Its block lies below the lowest that packets may have now. Holds that bound, or None where
    /// the last block id was used up.
    Late(Option<u64>),
    /// Its packet was kept before, or is a second trailer.
    Repeat,
    /// Its status, packet id or length doesn't fit the stream.
    Misfit,
    /// Its block was opened without a buffer.
    Starved,
    /// It is the camera's word that a packet can't be sent again.
    Notice,
}

impl fmt::Display for Why {
    fn fmt<W: fmt::Write>(&self, f: &mut fmt::Formatter<W>) -> fmt::Result {
        match self {
            Why::Foreign(error) => write!(f, "no packet of the stream: {error}"),
            Why::Late(Some(lowest)) => write!(f, "late: its block lies below {lowest}"),
            Why::Late(None) => write!(f, "late: the last block id was used up"),
            Why::Repeat => write!(f, "kept before"),
            Why::Misfit => write!(f, "its status, packet id or length doesn't fit the stream"),
            Why::Starved => write!(f, "its block was opened without a buffer"),
            Why::Notice => write!(f, "the camera can't send a packet again"),
        }
    }
}

/// What a datagram needs, or what became of it.
#[derive(Clone, Copy, Debug, PartialEq, Eq)]
pub enum Need {
    /// A buffer for this block. Once one was given, or none could be, the datagram is to be told
    /// again.
    Buffer(u64),
    /// Its packet was kept.
    Done,
    /// Nothing of it was kept.
    Ignored(Why),
}
