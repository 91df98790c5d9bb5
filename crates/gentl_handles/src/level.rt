/// What a handle stands for: one of GenTL's modules, or the event of a stream.
#[derive(Clone, Copy, Debug, PartialEq, Eq)]
pub enum Level {
    /// The transport layer's system.
    System,
    /// An interface of a system.
    Interface,
    /// A device on an interface.
    Device,
    /// A data stream of a device.
    Stream,
    /// The event of a stream, EVENT_NEW_BUFFER.
    Event,
}
