ghost use Rattle.std.specs.Prelude.{◌≡◌, length};
ghost use Rattle.script_replay.specs.declared.datagram_rooms.TheConstants.{ROOM, WIDE_ROOM};

use gev_types::NoMemory;
use std::alloc::Global;

/// How many bytes the datagram of the longest line has room in.
pub const ROOM: usize = 10_000;

/// And how many with extended identifiers in place of standard ones.
pub const WIDE_ROOM: usize = ROOM + 12;

/// Room for the bytes of a datagram, which is used again for each line.
#[derive(Drop)]
pub struct DatagramRooms {
    /// The bytes that the digits spell.
    pub room: Vec<u8>,
    /// Those bytes with extended identifiers in place of standard ones.
    pub wide_room: Vec<u8>,
    pub ghost large: { length room.items ≡ ROOM },
    pub ghost wide: { length wide_room.items ≡ WIDE_ROOM },
}

impl DatagramRooms {
    /// Reserves the room.
    pub fn new(alloc: Global) -> Result<DatagramRooms, NoMemory> {
        let room = vec![in alloc; 0u8; ROOM]?;
        let wide_room = vec![in alloc; 0u8; WIDE_ROOM]?;
        Ok(DatagramRooms { room, wide_room })
    }
}
