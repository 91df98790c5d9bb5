use std::fmt;

/// What was counted since the stream was made.
#[derive(Clone, Copy, Debug, Default, PartialEq, Eq)]
pub struct Counts {
    /// Blocks that were opened without a buffer.
    pub underrun: u64,
    /// Ranges of packets that were asked for again.
    pub requests: u64,
    /// Datagrams that were no packets.
    pub foreign: u64,
    /// Packets below the bound.
    pub late: u64,
    /// Packets that were kept before.
    pub repeat: u64,
    /// Packets that don't fit the stream.
    pub misfit: u64,
    /// Packets of a block without a buffer.
    pub starved: u64,
    /// Words of the camera that a packet can't be sent again.
    pub notice: u64,
}

/// Each count with its name, as at the end of a report.
impl fmt::Display for Counts {
    fn fmt<W: fmt::Write>(&self, f: &mut fmt::Formatter<W>) -> fmt::Result {
        let underrun = self.underrun;
        let requests = self.requests;
        let foreign = self.foreign;
        let late = self.late;
        write!(
            f,
            "underrun={underrun} requests={requests} foreign={foreign} late={late}"
        )?;
        let repeat = self.repeat;
        let misfit = self.misfit;
        let starved = self.starved;
        let notice = self.notice;
        write!(
            f,
            " repeat={repeat} misfit={misfit} starved={starved} notice={notice}"
        )
    }
}
