//! The ends of a queue.

use crate::line_log::Log;
use crossbeam_queue::Pass;
use std::marker::Model;

/// Both ends of a queue, before they part.
#[derive(Drop)]
pub struct Start<T: Drop> {
    pub(crate) pass: Pass<T, Log<T>>,
}

impl<T: Drop> Model for Start<T> {
    ghost use Rattle.std.specs.Prelude.{◌≡◌, [], true};
    ghost use Rattle.gev_lanes.specs.LineEnds.{GiverEnd};

    ghost Value = { GiverEnd T };

    ghost view = { λ s. record { line = s.pass.table_id; given = s.pass.me.0.client.given; refusals = s.pass.me.0.client.refusals } };

    ghost invariant = { λ s. (s.pass.me.1 ≡ []) × (s.pass.me.0.client.gives ≡ true) × (s.pass.me.0.client.takes ≡ true) × (s.pass.me.0.client.taken ≡ []) × (s.pass.me.0.client.misses ≡ 0) };
}

/// The end that gives.
#[derive(Drop)]
pub struct Giver<T: Drop> {
    pub(crate) pass: Pass<T, Log<T>>,
}

impl<T: Drop> Model for Giver<T> {
    ghost use Rattle.std.specs.Prelude.{◌≡◌, [], true};
    ghost use Rattle.gev_lanes.specs.LineEnds.{GiverEnd};

    ghost Value = { GiverEnd T };

    ghost view = { λ s. record { line = s.pass.table_id; given = s.pass.me.0.client.given; refusals = s.pass.me.0.client.refusals } };

    ghost invariant = { λ s. (s.pass.me.1 ≡ []) × (s.pass.me.0.client.gives ≡ true) };
}

/// The end that takes.
#[derive(Drop)]
pub struct Taker<T: Drop> {
    pub(crate) pass: Pass<T, Log<T>>,
}

impl<T: Drop> Model for Taker<T> {
    ghost use Rattle.std.specs.Prelude.{◌≡◌, [], true};
    ghost use Rattle.gev_lanes.specs.LineEnds.{TakerEnd};

    ghost Value = { TakerEnd T };

    ghost view = { λ s. record { line = s.pass.table_id; least = s.pass.me.0.client.least; taken = s.pass.me.0.client.taken; misses = s.pass.me.0.client.misses } };

    ghost invariant = { λ s. (s.pass.me.1 ≡ []) × (s.pass.me.0.client.takes ≡ true) };
}
