ghost use Rattle.std.specs.Prelude.{ℕ};

use std::marker::Brand;

/// What a READMEM asked for, and how many answers its link had told before, as a part of a link's type: no call
/// of the link changes them. Who makes one takes it for [`Brand`] and picks the numbers.
pub trait AskedFor {
    ghost address: { ℕ };

    ghost count: { ℕ };

    ghost before: { ℕ };
}

impl AskedFor for Brand {
    ghost address = { 0 };

    ghost count = { 0 };

    ghost before = { 0 };
}
