//! The law of a bridge's moves.

ghost use Rattle.ds_entry.specs.ItemCovers.{covers};
ghost use Rattle.fleet_bridge.specs.Asking.{NothingIsLeft};
ghost use Rattle.fleet_bridge.specs.Moving.{AskingHappens, MovesHappen};

/// Laws: each question that a bridge asks, and each of its moves, is an event of the rule, after which it represents the rule's bridge. A
/// bridge that asks nothing has nothing left to send.
pub fn moves_happen()
    ensures asking { AskingHappens covers }
    ensures moves { MovesHappen covers }
    ensures nothing { NothingIsLeft }
{}
