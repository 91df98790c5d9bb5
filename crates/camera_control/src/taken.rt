use crate::control_end::ControlEnd;

/// What a camera that was taken told of its stream.
#[derive(Clone, Copy, Debug, PartialEq, Eq)]
pub struct Taken {
    /// Whether packets may be asked for again.
    pub resends: bool,
    /// The size of the stream's packets in bytes, with the headers of IP, UDP and GVSP.
    pub packet_size: u16,
}

/// How the taking of a camera failed.
#[derive(Clone, Copy, Debug, PartialEq, Eq)]
pub struct NotTaken {
    /// Why.
    pub end: ControlEnd,
    /// Whether the camera had acknowledged that this application controls it: then it's to be let go.
    pub held: bool,
}
