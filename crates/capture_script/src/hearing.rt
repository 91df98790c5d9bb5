//! A datagram with either kind of identifiers comes.

ghost use Rattle.std.specs.Prelude.{◌≡◌, ◌+◌, ◌≤◌, true, length};
ghost use Rattle.take_lines.specs.Players.{config_in, Took};
ghost use Rattle.capture_script.specs.Playing.{Played, config, is_standard, heard};
ghost use Rattle.capture_script.specs.Standing.{Hears};

use crate::turning::tell;
use gvsp_std::Widener;
use take_lines::Player;

/// The bytes of a header with standard identifiers.
const HEADER_SIZE: usize = 8;

/// The bit of the format byte that says extended identifiers.
const EXTENDED: u8 = 0x80;

/// The greatest block behind which a datagram is widened.
const MOST_BLOCK: u64 = 1 << 63;

/// Whether a datagram is to be widened.
fn is_standard(top: u64, bytes: &[u8]) -> bool
    ensures { result ≡ is_standard top bytes.now }
{
    top <= MOST_BLOCK && bytes.len() >= HEADER_SIZE && bytes[4] < EXTENDED
}

/// Tells a datagram with standard identifiers as one with extended ones, which comes into the room. One whose id names
/// no block isn't told.
fn receive_standard(
    player: &mut Player,
    p: u32,
    widener: &mut Widener,
    room: &mut [u8],
    bytes: &[u8],
) -> u8
    requires config { config_in player.old ≡ config p }
    requires standard { is_standard widener.old bytes.now ≡ true }
    requires room { length bytes.now + 12 ≤ length room.old }
    ensures hears { (s : Played) → Took player.old s.inputs → widener.old ≡ s.top
        → Hears (heard p player.old.size bytes.now s) player.new widener.new result }
    ensures config { config_in player.new ≡ config p }
    ensures size { player.new.size ≡ player.old.size }
{
    match widener.widen(bytes, room) {
        Ok(count) => tell(player, p, &room[..count]),
        Err(_refusal) => 0,
    }
}

/// Tells a datagram, and gives a buffer where it asks for one. Answers how many buffers were filled.
pub(crate) fn receive_bytes(
    player: &mut Player,
    p: u32,
    widener: &mut Widener,
    room: &mut [u8],
    bytes: &[u8],
) -> u8
    requires config { config_in player.old ≡ config p }
    requires room { length bytes.now + 12 ≤ length room.old }
    ensures hears { (s : Played) → Took player.old s.inputs → widener.old ≡ s.top
        → Hears (heard p player.old.size bytes.now s) player.new widener.new result }
    ensures config { config_in player.new ≡ config p }
    ensures size { player.new.size ≡ player.old.size }
{
    let top = widener.top();
    if is_standard(top, bytes) {
        return receive_standard(player, p, widener, room, bytes);
    }
    tell(player, p, bytes)
}
