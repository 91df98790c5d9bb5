ghost use Rattle.std.specs.Prelude.{◌≡◌};
ghost use Rattle.gev_types.specs.Reasons.{no_reason, has_reason};

/// Why the image of a block isn't whole in its buffer: those that hold.
#[derive(Clone, Copy, Debug, PartialEq, Eq)]
pub struct Reasons {
    /// No leader was kept.
    pub no_leader: bool,
    /// A leader was kept, and the image is longer than the buffer.
    pub small: bool,
    /// No trailer was kept, or a leader was and the trailer's id isn't the one behind the last payload.
    pub no_trailer: bool,
    /// A leader was kept, and some payload of the image wasn't.
    pub no_payload: bool,
    /// A leader was kept, and some kept payload of the image has fewer bytes than its place.
    pub short: bool,
}

impl Reasons {
    /// Where none holds.
    pub fn none() -> Reasons
        ensures { result ≡ no_reason }
    {
        Reasons {
            no_leader: false,
            small: false,
            no_trailer: false,
            no_payload: false,
            short: false,
        }
    }

    /// Whether some reason holds.
    pub fn any(self) -> bool
        ensures { result ≡ has_reason self }
    {
        self.no_leader || self.small || self.no_trailer || self.no_payload || self.short
    }
}
