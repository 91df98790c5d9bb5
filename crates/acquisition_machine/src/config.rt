/// How a stream's blocks are received.
#[derive(Clone, Copy, Debug, PartialEq, Eq)]
pub struct AcqConfig {
    /// The payload size: how many bytes each payload packet but a block's last one has, 528 to 8,952.
    pub p: u32,
    /// How many blocks may be open at once, 1 to 4.
    pub window: u8,
    /// After how many milliseconds without a new packet a block retires, 1 to 60,000.
    pub timeout: u32,
    /// After how many milliseconds without a new packet the missing ones are asked for, 1 to 60,000.
    pub age: u32,
    /// How often the missing packets of one block are asked for, 0 to 8.
    pub rounds: u8,
}
