/// Where a description lies in the memory of its camera.
#[derive(Clone, Copy, Debug, PartialEq, Eq)]
pub struct Location {
    /// The address of its first byte.
    pub address: u32,
    /// How many bytes it has, at least one. The last one lies below 2^32.
    pub size: u32,
}
