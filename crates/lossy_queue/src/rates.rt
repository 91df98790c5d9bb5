/// How often a network loses, repeats and swaps datagrams. Each rate is in thousandths: of 0 it never
/// does, of 1000 and above it always does.
#[derive(Clone, Copy, Debug, PartialEq, Eq)]
pub struct Rates {
    /// How many of a thousand datagrams are lost.
    pub loss: u16,
    /// How many of a thousand that aren't lost come twice.
    pub repeat: u16,
    /// How many of a thousand that aren't lost overtake the one before them.
    pub swap: u16,
}
