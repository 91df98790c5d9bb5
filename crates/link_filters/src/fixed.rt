ghost use Rattle.std.specs.Prelude.{ℕ};

use std::marker::Brand;

/// The address that an `OnlyFrom` hears, as a part of its type: no call of the link changes it. Who makes one
/// takes it for [`Brand`] and picks the number.
pub trait Heard {
    ghost source: { ℕ };
}

impl Heard for Brand {
    ghost source = { 0 };
}

/// How many answers a link had told when a `Widened` was made of it, as a part of its type.
pub trait Behind {
    ghost before: { ℕ };
}

impl Behind for Brand {
    ghost before = { 0 };
}
