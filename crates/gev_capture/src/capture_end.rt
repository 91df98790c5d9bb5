use crate::kind::CaptureKind;

/// Why a capture gives no further record.
#[derive(Clone, Copy, Debug, PartialEq, Eq)]
pub enum CaptureEnd {
    /// It's at its end.
    Ended,
    /// The record is refused.
    Refused(CaptureKind),
    /// A call of the source failed.
    ReadFault,
}
