/// How the first leader is waited for.
#[derive(Clone, Copy, Debug, PartialEq, Eq)]
pub struct Patience {
    /// The size of the stream's packets in bytes, with the headers of IP, UDP and GVSP.
    pub packet_size: u16,
    /// How many milliseconds are waited.
    pub silence: u64,
    /// Whether the wait ends where the input has ended.
    pub until_input: bool,
}
