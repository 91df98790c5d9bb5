//! The named bits of a header (GigE Vision 2.0, GVSP packet header).

ghost use Rattle.std.specs.Prelude.{⊤, [], ◌∷◌, codes};

use bitflags::{Flag, Flags, bitflag_items};

/// The format byte: its top bit, and below it the packet format in the low four bits.
#[derive(Clone, Copy, PartialEq, Eq)]
pub(crate) struct FormatByte(u8);

bitflag_items! {
    impl FormatByte: u8 {
        const EXTENDED = 0x80;
    }
}

impl Flags for FormatByte {
    type Bits = u8;

    ghost exact = { ⊤ };

    ghost table = { (codes "EXTENDED", 128) ∷ [] };

    ghost set_of = { λ f. f.0 };

    fn flags<'a>() -> &'a [Flag<FormatByte>] {
        FormatByte::FLAGS
    }

    fn bits(&self) -> u8 {
        self.0
    }

    fn from_bits_retain(bits: u8) -> FormatByte {
        FormatByte(bits)
    }
}

/// The flags of a header, which `Head` has as a number: `HeadFlags::from_bits_retain(head.flags)`.
#[derive(Clone, Copy, Debug, PartialEq, Eq)]
pub struct HeadFlags(u16);

bitflag_items! {
    impl HeadFlags: u16 {
        /// The packet was sent again.
        const PACKET_RESENT = 0x0001;
        /// The block before this one was dropped.
        const PREVIOUS_BLOCK_DROPPED = 0x0002;
        /// A resend command asked for packets outside the block.
        const RESEND_RANGE_ERROR = 0x0004;
    }
}

impl Flags for HeadFlags {
    type Bits = u16;

    ghost exact = { ⊤ };

    ghost table = { (codes "PACKET_RESENT", 1) ∷ (codes "PREVIOUS_BLOCK_DROPPED", 2)
        ∷ (codes "RESEND_RANGE_ERROR", 4) ∷ [] };

    ghost set_of = { λ f. f.0 };

    fn flags<'a>() -> &'a [Flag<HeadFlags>] {
        HeadFlags::FLAGS
    }

    fn bits(&self) -> u16 {
        self.0
    }

    fn from_bits_retain(bits: u16) -> HeadFlags {
        HeadFlags(bits)
    }
}
