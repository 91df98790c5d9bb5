ghost use Rattle.std.specs.Prelude.{[]};
ghost use Rattle.buffer_words.specs.Rule.{Kept, idle};

use crate::view::View;
use atomic_table::TableRule;
use gev_types::Buf;

/// The rule of the shared table: words, slots and passes are those of the board after one history.
#[derive(Clone, Copy)]
pub struct OneHistory;

impl TableRule<Option<Buf>, View, ()> for OneHistory {
    ghost holds = { λ _. Kept };

    ghost first = { λ _. idle 0 [] };
}
