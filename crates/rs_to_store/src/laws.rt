//! The laws of follows.

ghost use Rattle.rs_to_store.specs.Laws.{FollowsAreRuns, FollowsEndForRoom, FollowsKeepUnits};

/// A law of every follow, over definitions. It is a run of the table's calls with states of the table's own labels, and
/// its rounds are their moves, so all laws of driver tables over runs apply to it. It changes neither the units nor the
/// requests. Only NoRoom ends it, at a label that has a round, and the labels before that one were followed to their
/// end.
pub fn follows_keep_tables()
    ensures runs { FollowsAreRuns }
    ensures units { FollowsKeepUnits }
    ensures ends { FollowsEndForRoom }
{}
