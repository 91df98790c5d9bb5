//! Turns of the acquisition, in which each claim finds a buffer.

ghost use Rattle.std.specs.Prelude.{◌≡◌, ◌≤◌, ◌∷◌, [], List, length, IsSome};
ghost use Rattle.acquisition_machine.specs.Machine.{Input, datagram, tick as moment_input, stop as stopped};
ghost use Rattle.acquisition_machine.specs.Runs.{turn};
ghost use Rattle.take_lines.specs.Players.{config_in, asked_in, Took};
ghost use Rattle.capture_script.specs.Playing.{config, inputs_by};
ghost use Rattle.capture_script.specs.Standing.{Plays, found};

use arrayvec::ArrayVec;
use take_lines::{Need, Player};

/// How many buffers came back.
fn count(back: &ArrayVec<u8, 4>) -> u8
    ensures is { result ≡ length back.now.items }
    ensures few { result ≤ 4 }
{
    back.len() as u8
}

/// A datagram that asked for a buffer finds one, and is told again. Answers how many buffers were filled since it was
/// told first.
fn tell_again(player: &mut Player, p: u32, bytes: &[u8]) -> u8
    requires config { config_in player.old ≡ config p }
    requires asked { IsSome (asked_in player.old) }
    ensures plays { (q : List Input) → Took player.old q → Plays p q (found player.old.size ∷ datagram bytes.now ∷ []) player.new result }
    ensures config { config_in player.new ≡ config p }
    ensures size { player.new.size ≡ player.old.size }
    ensures few { result ≤ 4 }
{
    player.give(Some(0));
    let (_need, back) = player.datagram(bytes);
    count(&back)
}

/// Tells a datagram, which finds a buffer where it asks for one. Answers how many buffers were filled.
pub(crate) fn tell(player: &mut Player, p: u32, bytes: &[u8]) -> u8
    requires config { config_in player.old ≡ config p }
    ensures plays { (q : List Input) → Took player.old q
        → Plays p q (inputs_by player.old.size bytes.now (turn (config p) q (datagram bytes.now)).need) player.new result }
    ensures config { config_in player.new ≡ config p }
    ensures size { player.new.size ≡ player.old.size }
{
    let (need, back) = player.datagram(bytes);
    let first = count(&back);
    match need {
        Need::Buffer(_) => first + tell_again(player, p, bytes),
        Need::Done => first,
        Need::Ignored(_) => first,
    }
}

/// Tells a moment, in milliseconds, to the acquisition. Answers how many buffers were filled.
pub(crate) fn tell_moment(player: &mut Player, p: u32, moment: u64) -> u8
    requires config { config_in player.old ≡ config p }
    ensures plays { (q : List Input) → Took player.old q → Plays p q (moment_input moment ∷ []) player.new result }
    ensures config { config_in player.new ≡ config p }
    ensures size { player.new.size ≡ player.old.size }
{
    let back = player.tick(moment);
    count(&back)
}

/// Stops the acquisition. Answers how many buffers were filled.
pub(crate) fn tell_stop(player: &mut Player, p: u32) -> u8
    requires config { config_in player.old ≡ config p }
    ensures plays { (q : List Input) → Took player.old q → Plays p q (stopped ∷ []) player.new result }
    ensures config { config_in player.new ≡ config p }
    ensures size { player.new.size ≡ player.old.size }
{
    let back = player.stop();
    count(&back)
}
