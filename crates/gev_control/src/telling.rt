//! What a heartbeat told.

ghost use Rattle.std.specs.Prelude.{◌≡◌};
ghost use Rattle.gev_control.specs.Telling.{told_value};

use control_client::Client;

/// The value of the control channel privilege that a heartbeat told in a turn of the reader which went on: after
/// it the client is this one, and before it a command was outstanding if `waited`. Without its two lowest bits
/// the camera has let its controller go.
pub fn heartbeat_value(client: &Client, waited: bool) -> Option<u32>
    ensures { result ≡ told_value waited client.now.asked client.now }
{
    if !waited || !client.is_idle() {
        return None;
    }
    client.value()
}
