//! Laws of judging.

ghost use Rattle.ds_store.specs.Last.{NoRoomIsNoCause, NoRoomIsNoRefusal, OutcomesAreLast, PatternMayLackRoom, BehindMayLackRoom};

/// A law: NoRoom isn't in the order of causes, so it is never judged.
pub fn want_of_room_is_no_cause()
    ensures causes { NoRoomIsNoCause }
    ensures refusals { NoRoomIsNoRefusal }
{}

/// A law: a command with a scope may be out of memory when its pattern is read, and when no cause applies.
pub fn scopes_may_lack_room()
    ensures pattern { PatternMayLackRoom }
    ensures behind { BehindMayLackRoom }
{}

/// A law: the machine's own answers are never out of memory where they may not be.
pub fn outcomes_have_room()
    ensures { OutcomesAreLast }
{}
