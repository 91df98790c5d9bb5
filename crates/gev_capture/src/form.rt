use crate::order::Order;

/// An interface of a section of a pcapng file.
#[derive(Clone, Copy, Debug, Default, PartialEq, Eq)]
pub struct SectionInterface {
    /// The link type.
    pub link: u16,
    /// The most bytes of a packet that were captured, 0 for no limit.
    pub most: u32,
    /// Into how many parts a second is divided.
    pub parts: u64,
    /// How many packets the capturing program has dropped, as it told last; at first 0.
    pub dropped: u64,
}

/// What is known of a capture's format behind the records that were read, the interfaces of its section
/// apart.
#[derive(Clone, Copy, Debug, PartialEq, Eq)]
pub enum Form {
    /// Nothing was read.
    Fresh,
    /// A pcap file.
    Classic {
        /// The byte order of its numbers.
        order: Order,
        /// Into how many parts a second is divided.
        parts: u64,
        /// The link type of its packets.
        link: u16,
    },
    /// A section of a pcapng file.
    Section {
        /// The byte order of its numbers.
        order: Order,
        /// The time of the last packet in nanoseconds, at first 0.
        time: u128,
    },
}
