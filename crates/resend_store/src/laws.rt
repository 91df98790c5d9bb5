//! Laws over the definitions of the resend store. These functions do nothing: their contracts are the
//! laws.

ghost use Rattle.std.specs.Prelude.{ℕ, List};
ghost use Rattle.resend_store.specs.declared.sent.SentFrame.{SentFrame};
ghost use Rattle.resend_store.specs.Shelf.{Shelf};
ghost use Rattle.resend_store.specs.Laws.{EmptyStands, PushStands, StoreAnswers};

/// A new store, and a cleared one, stands for the empty list of pushes.
pub fn a_new_store_stands_for_nothing()
    ensures { (room : ℕ) → EmptyStands room }
{}

/// A push adds its frame at the end of the list that the store stands for: the store holds the last
/// frames that were pushed.
pub fn a_push_adds_its_frame()
    ensures { (shelf : Shelf) (pushed : List SentFrame) (sent : SentFrame) → PushStands shelf pushed sent }
{}

/// A store answers as the list of the pushes that it stands for says.
pub fn a_store_answers_as_its_list()
    ensures { (shelf : Shelf) (pushed : List SentFrame) → StoreAnswers shelf pushed }
{}
