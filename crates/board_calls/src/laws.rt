//! Laws of the definitions. Each function only carries its statement.

ghost use Rattle.board_calls.specs.Laws.{EachRemovedIsOne, ClaimsTakeOldest, OldestIsDropped, NothingIsClaimed, NewestIsAlone};

/// Each buffer that left the output was handed out, dropped or swept, and only one of them.
pub fn each_removed_is_one()
    ensures { EachRemovedIsOne }
{}

/// On a board that others act on too, a claim that takes a waiting buffer found the input pool empty at its first
/// step, and took the one that waited longest at the step of its take.
pub fn claims_take_oldest()
    ensures { ClaimsTakeOldest }
{}

/// Where nobody else acts between its steps, a claim that takes a waiting buffer found the input pool empty, and took
/// the one that waited longest when it began.
pub fn oldest_is_dropped()
    ensures { OldestIsDropped }
{}

/// Where nobody else acts between its steps, a claim gets nothing exactly where there was nothing for it in its mode.
pub fn nothing_is_claimed()
    ensures { NothingIsClaimed }
{}

/// Where nobody else acts between its steps, a fill with NewestOnly leaves its buffer waiting alone, and those that
/// waited before it were dropped.
pub fn newest_is_alone()
    ensures { NewestIsAlone }
{}
