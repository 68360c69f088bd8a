//! The laws of the judgement, and of the transaction of a compaction.

ghost use Rattle.ds_entry.specs.ItemCovers.{covers};
ghost use Rattle.fleet_loss.specs.Compaction.{CompactionsTrimWhatWasRead, GeneratedIsNotEnough};
ghost use Rattle.fleet_loss.specs.Loss.{LacksAreSeen, NoFalseAlarm, SameEndAlarms, SmallerIdsAreSeen, CountsAreNotEnough};

/// Laws of the judgement that a server lost something.
///
/// There is no false alarm while each compaction goes further than the one before. A stream that lacks a probed entry is seen, and so is
/// one whose ids begin anew below those that were read. Counts alone miss a stream that was replaced.
pub fn losses_are_judged()
    ensures quiet { NoFalseAlarm }
    ensures seen { LacksAreSeen }
    ensures smaller { SmallerIdsAreSeen }
    ensures same_end { SameEndAlarms }
    ensures counts { CountsAreNotEnough }
{}

/// Laws of the transaction of a compaction: it trims only what its bridge read if it finds the last entry that the bridge read, and an id
/// names one entry. That ids were given beyond that entry isn't enough.
pub fn compactions_check()
    ensures read { CompactionsTrimWhatWasRead covers }
    ensures generated { GeneratedIsNotEnough covers }
{}
