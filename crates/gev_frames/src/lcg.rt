ghost use Rattle.std.specs.Prelude.{◌≡◌};
ghost use Rattle.gev_frames.specs.Generator.{next, draw};

use std::marker::Model;

const MULTIPLIER: u64 = 6364136223846793005;

const INCREMENT: u64 = 1442695040888963407;

/// A generator of numbers for test images: a linear congruential generator over 64 bits.
///
/// Contracts see its number. The same start gives the same draws on every machine. It isn't meant to
/// be hard to guess.
#[derive(Clone, Copy, Debug, PartialEq, Eq)]
pub struct Lcg {
    x: u64,
}

impl Model for Lcg {
    ghost use Rattle.std.specs.Prelude.{ℕ};

    ghost Value = { ℕ };

    ghost view = { λ g. g.x };

    ghost inverse = { λ x. record { x = x } };
}

impl Lcg {
    /// The generator that starts at `x`.
    pub fn new(x: u64) -> Lcg
        ensures { result ≡ x }
    {
        Lcg { x }
    }

    /// Goes on to the next number, and gives the top 32 of its 64 bits.
    pub fn draw(&mut self) -> u32
        ensures drawn { result ≡ draw self.old }
        ensures goes_on { self.new ≡ next self.old }
    {
        self.x = self.x.wrapping_mul(MULTIPLIER).wrapping_add(INCREMENT);
        (self.x >> 32) as u32
    }
}
