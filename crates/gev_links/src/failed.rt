use thiserror::Error;

/// A call on the outside failed. The object's count of faults rose in that call, or stands at the
/// counter's last value.
#[derive(Clone, Copy, Debug, PartialEq, Eq, Error)]
#[error("the call failed")]
pub struct Failed;
