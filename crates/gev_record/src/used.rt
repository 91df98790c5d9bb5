ghost use Rattle.std.specs.Prelude.{◌≡◌};
ghost use Rattle.gev_record.specs.Places.{lowest_in, freed, taken, all_freed};

/// Which of the three places of a recorded script the buffers of open blocks have.
#[derive(Clone, Copy)]
pub(crate) struct Used {
    pub(crate) first: bool,
    pub(crate) second: bool,
    pub(crate) third: bool,
}

impl Used {
    /// The lowest place that none of them has, where one of the first two is free; else the third.
    pub(crate) fn lowest_free(self) -> u8
        ensures { result ≡ lowest_in self }
    {
        if !self.first {
            0
        } else if !self.second {
            1
        } else {
            2
        }
    }

    /// The place is free again.
    pub(crate) fn free(self, place: u8) -> Used
        ensures { result ≡ freed place self }
    {
        match place {
            0 => Used {
                first: false,
                ..self
            },
            1 => Used {
                second: false,
                ..self
            },
            2 => Used {
                third: false,
                ..self
            },
            _ => self,
        }
    }

    /// These places are free again.
    pub(crate) fn free_all(self, places: &[u8]) -> Used
        ensures { result ≡ all_freed places.now self }
    {
        let mut used = self;
        for place in places {
            used = used.free(*place);
        }
        used
    }

    /// The place is an open block's.
    pub(crate) fn occupy(self, place: u8) -> Used
        ensures { result ≡ taken place self }
    {
        match place {
            0 => Used {
                first: true,
                ..self
            },
            1 => Used {
                second: true,
                ..self
            },
            2 => Used {
                third: true,
                ..self
            },
            _ => self,
        }
    }
}
