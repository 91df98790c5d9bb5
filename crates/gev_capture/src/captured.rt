/// What a record of a capture tells of packets, lent by its reader.
#[derive(Clone, Copy, Debug, PartialEq, Eq)]
pub enum Captured<'a> {
    /// A packet was captured.
    Packet {
        /// Its time in nanoseconds.
        time: u128,
        /// Its interface's link type.
        link: u16,
        /// Its bytes, as many as were captured.
        bytes: &'a [u8],
    },
    /// The capturing program has dropped so many of an interface's packets.
    Dropped {
        /// As it told of the interface before, 0 where it hadn't.
        before: u64,
        /// As it tells now.
        now: u64,
    },
}
