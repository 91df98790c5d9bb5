use std::{fmt, io};

/// A call of the system for a link.
#[derive(Clone, Copy)]
pub enum Call {
    /// A route to the peer is looked for.
    Connect,
    Bind,
    Send,
    Receive,
}

impl fmt::Display for Call {
    fn fmt<W: fmt::Write>(&self, f: &mut fmt::Formatter<W>) -> fmt::Result {
        f.write_str(match self {
            Call::Connect => "connect",
            Call::Bind => "bind",
            Call::Send => "send",
            Call::Receive => "receive",
        })
    }
}

/// A call of the system that failed, and its reason. The text is the call's name, a colon and the system's words.
#[derive(Clone, Copy)]
pub struct CallFault {
    /// What was called.
    pub call: Call,
    /// Why it failed.
    pub error: io::Error,
}

impl CallFault {
    /// The fault of this call by this reason.
    pub(crate) fn new(call: Call, error: io::Error) -> CallFault {
        CallFault { call, error }
    }
}

impl fmt::Display for CallFault {
    fn fmt<W: fmt::Write>(&self, f: &mut fmt::Formatter<W>) -> fmt::Result {
        let CallFault { call, error } = self;
        write!(f, "{call}: {error}")
    }
}

/// The fault of a link that can't be bound.
pub(crate) fn bind_fault(error: io::Error) -> CallFault {
    CallFault::new(Call::Bind, error)
}

/// The fault of a peer to which no route goes.
pub(crate) fn connect_fault(error: io::Error) -> CallFault {
    CallFault::new(Call::Connect, error)
}
