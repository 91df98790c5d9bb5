use gev_capture::CaptureKind;

/// How a run over a capture ended.
#[derive(Clone, Copy, Debug, PartialEq, Eq)]
pub enum Ending {
    /// The capture was read to its end, and its text was written.
    Done {
        /// Whether something is told of there.
        told: bool,
    },
    /// A record of the capture is refused. The text of the packets before it was written, with its end.
    BadCapture {
        /// The record's number, from 1.
        record: u64,
        /// Why it's refused.
        kind: CaptureKind,
    },
    /// Reading failed. The text of the packets before was written, without its end.
    ReadFault,
    /// Writing failed.
    WriteFault,
    /// Memory ran out.
    NoMemory,
}
