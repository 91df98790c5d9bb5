/// The header of a GVSP packet with extended identifiers (GigE Vision 2.0, GVSP packet header).
#[derive(Clone, Copy, Debug, PartialEq, Eq)]
pub struct Head {
    /// The status: 0x0000 for a packet of the stream, 0x0100 for one that was sent again.
    pub status: u16,
    /// The flags; bit 0 says that the packet was sent again.
    pub flags: u16,
    /// The block id, from 1 on.
    pub block: u64,
    /// The packet id within the block: 0 for the leader, then the payloads from 1 on, then the
    /// trailer.
    pub id: u32,
}

/// What a leader says of the image that follows (GigE Vision 2.0, GVSP image leader).
#[derive(Clone, Copy, Debug, PartialEq, Eq)]
pub struct LeaderInfo {
    /// When the image was taken, in the camera's ticks.
    pub timestamp: u64,
    /// The pixel format's code; bits 16 to 23 are the bits of a pixel.
    pub pixel: u32,
    /// Pixels in a line.
    pub size_x: u32,
    /// Lines, as many as the image may have; the trailer tells how many it has.
    pub size_y: u32,
    /// The first column of the sensor that is sent.
    pub offset_x: u32,
    /// The first line of the sensor that is sent.
    pub offset_y: u32,
    /// Bytes after each line.
    pub padding_x: u16,
    /// Bytes after the image.
    pub padding_y: u16,
    /// The size in bytes of an image of so many lines, which follows from the fields above: 1 byte to
    /// 64 MiB.
    pub size: u32,
}
