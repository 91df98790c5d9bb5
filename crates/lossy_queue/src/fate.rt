ghost use Rattle.std.specs.Prelude.{◌≡◌};
ghost use Rattle.gev_frames.specs.Generator.{next};
ghost use Rattle.lossy_queue.specs.Lossy.{happens, fate_of, after_put};

use crate::rates::Rates;
use gev_frames::Lcg;

/// What becomes of a datagram.
#[derive(Clone, Copy, PartialEq, Eq)]
pub(crate) enum Fate {
    /// It's lost.
    Lost,
    /// It's put once, before the last entry if it's swapped.
    Once { swapped: bool },
    /// It's put twice in a row, each time before the last entry if it's swapped.
    Twice { swapped: bool },
}

/// Draws whether something happens that happens so many times in a thousand.
fn happens(rate: u16, generator: &mut Lcg) -> bool
    ensures drawn { result ≡ happens rate generator.old }
    ensures goes_on { generator.new ≡ next generator.old }
{
    generator.draw() % 1000 < u32::from(rate)
}

/// Draws what becomes of a datagram. Three numbers are drawn, also where it's lost.
#[tactic(auto, unfolding(crate::specs::Lossy::after_put))]
pub(crate) fn draw_fate(rates: Rates, generator: &mut Lcg) -> Fate
    ensures drawn { result ≡ fate_of rates generator.old }
    ensures goes_on { generator.new ≡ after_put generator.old }
{
    let lost = happens(rates.loss, generator);
    let repeated = happens(rates.repeat, generator);
    let swapped = happens(rates.swap, generator);
    if lost {
        return Fate::Lost;
    }
    if repeated {
        return Fate::Twice { swapped };
    }
    Fate::Once { swapped }
}
