//! What the definitions promise: each function here does nothing, and its contract is a law.

ghost use Rattle.gentl_handles.specs.Calls.{SerialsRise, CallsKeepOrder, ClosingTakesAllBelow};

/// No serial is given twice, whatever calls are made.
pub fn serials_rise()
    ensures { SerialsRise }
{}

/// After any calls the serials of the open handles rise, and each handle stands behind its parent.
pub fn calls_keep_order()
    ensures { CallsKeepOrder }
{}

/// After any calls a closing takes the handle and all below it, and nothing else.
pub fn closing_takes_all_below()
    ensures { ClosingTakesAllBelow }
{}
