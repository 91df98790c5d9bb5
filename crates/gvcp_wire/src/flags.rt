ghost use Rattle.std.specs.Prelude.{⊤, ◌≡◌, [], ◌∷◌, codes};
ghost use Rattle.gvcp_wire.specs.Flags.{has_flag};

use bitflags::{Flag, Flags, bitflag_items};

/// The flag bits of a command's header that have a meaning (GigE Vision 2.0, GVCP command header).
#[derive(Clone, Copy, PartialEq, Eq, Debug)]
pub struct CommandFlags(u8);

bitflag_items! {
    impl CommandFlags: u8 {
        /// The sender wants an acknowledge.
        const ACKNOWLEDGE = 0x01;
        /// In DISCOVERY: the acknowledge may be broadcast.
        const ALLOW_BROADCAST_ACK = 0x10;
        /// In PACKETRESEND: identifiers are extended.
        const EXTENDED_ID = 0x10;
    }
}

impl Flags for CommandFlags {
    type Bits = u8;

    ghost exact = { ⊤ };

    ghost table = { (codes "ACKNOWLEDGE", 0x01) ∷ (codes "ALLOW_BROADCAST_ACK", 0x10) ∷ (codes "EXTENDED_ID", 0x10) ∷ [] };

    ghost set_of = { λ f. f.0 };

    fn flags<'a>() -> &'a [Flag<CommandFlags>] {
        CommandFlags::FLAGS
    }

    fn bits(&self) -> u8 {
        self.0
    }

    fn from_bits_retain(bits: u8) -> CommandFlags {
        CommandFlags(bits)
    }
}

/// Whether a PACKETRESEND with these flags has extended identifiers.
pub fn has_extended_ids(flags: u8) -> bool
    ensures { result ≡ has_flag 0x10 flags }
{
    CommandFlags::from_bits_retain(flags).contains(CommandFlags::EXTENDED_ID)
}
