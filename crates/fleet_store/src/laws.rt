//! The laws of a bridge's store.

ghost use Rattle.fleet_store.specs.Changes.{NewsAreChanges};
ghost use Rattle.fleet_store.specs.Taking.{TakenAreJoined, TakenAreJoinedInPart};

/// Laws: a store and its dead letters that take items hold nothing else afterwards, and still cover all that they held. They cover all
/// of the items, too, unless one was dropped.
pub fn taken_items_join()
    ensures all { TakenAreJoined }
    ensures part { TakenAreJoinedInPart }
{}

/// A law: the items that take effect in a store are changes at its bridge, in the order of the journal.
pub fn news_are_changes()
    ensures { NewsAreChanges }
{}
