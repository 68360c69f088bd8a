//! The laws of a fleet, over the items of stores.

ghost use Rattle.ds_entry.specs.ItemCovers.{covers};
ghost use Rattle.fleet_rule.specs.Example.{ChangesCome, LostIsSentAgain, SnapshotsCome};
ghost use Rattle.fleet_rule.specs.Known.{KnownIsKept};
ghost use Rattle.fleet_rule.specs.Laws.{AnsweredIsKept, ReadersHoldAll, BridgesAgree};
ghost use Rattle.fleet_rule.specs.Laws.{SnapshotsAreWhole, NothingHeldIsLost, NothingIsEchoed};
ghost use Rattle.fleet_rule.specs.Same.{BridgesHoldTheSame, TopsJoin, TopsOfAllJoin};

/// Laws of every list of events: bridges crash, connections end, servers fail over and lose what they had.
///
/// The replicas have each answered change until the server loses something, and all that a bridge held when it asked, if the history is the
/// one that it met and all that waited is acknowledged. Bridges that have read the log hold all of it, and agree once
/// they have sent everything. A snapshot and the log from its end on are whole. A bridge that lives on makes good what a server lost, and
/// echoes nothing.
pub fn items_are_kept()
    ensures answered { AnsweredIsKept covers }
    ensures known { KnownIsKept covers }
    ensures read { ReadersHoldAll covers }
    ensures agree { BridgesAgree covers }
    ensures same { BridgesHoldTheSame }
    ensures tops { TopsJoin }
    ensures tops_of_all { TopsOfAllJoin }
    ensures snapshots { SnapshotsAreWhole covers }
    ensures held { NothingHeldIsLost covers }
    ensures echo { NothingIsEchoed covers }
{}

/// Laws by example: a fleet can begin, a change can reach another bridge by the log or by a snapshot, and an emptied server can have
/// again what it lost.
pub fn changes_come()
    ensures come { ChangesCome covers }
    ensures snapshot { SnapshotsCome covers }
    ensures again { LostIsSentAgain covers }
{}
