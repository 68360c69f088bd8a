//! Proofs that the rule needs its guards: of each, a wrong rule without it, by which some events make a law false.

ghost use Rattle.ds_entry.specs.ItemCovers.{covers};
ghost use Rattle.fleet_rule.specs.CarelessCompaction.{OutboxIsNeeded, ResendingIsNeeded, DroppingIsNeeded, HistoryIsNeeded, LaterIsNeeded};
ghost use Rattle.fleet_rule.specs.CarelessMeeting.{PositionIsNeeded, ConsumedIsNeeded, SendingAgainIsNeeded, NewsIsNeeded, NeedIsNeeded};
ghost use Rattle.fleet_rule.specs.CarelessReading.{SameHistoryIsNeeded, SamePositionIsNeeded, GapIsNeeded, NotingIsNeeded};
ghost use Rattle.fleet_rule.specs.CarelessSending.{ReplicasAreNeeded, CountIsNeeded, RestIsNeeded};
ghost use Rattle.fleet_rule.specs.Known.{LookIsNeeded, ToldIsNeeded, OwedIsNeeded, WaitIsNeeded};
ghost use Rattle.fleet_rule.specs.Premises.{SeeingIsNeeded, ChoiceIsNeeded};

/// Laws: a compaction adds the outbox first, waits for resending, never follows a dropped item, and replaces neither another history nor a
/// later snapshot. Otherwise bridges differ, or an answered change is trimmed.
pub fn compaction_guards_are_needed()
    ensures outbox { OutboxIsNeeded covers }
    ensures resending { ResendingIsNeeded covers }
    ensures dropping { DroppingIsNeeded covers }
    ensures history { HistoryIsNeeded covers }
    ensures later { LaterIsNeeded covers }
{}

/// Laws: an answer to a reading is ignored if it is of another history, begins elsewhere, or before the snapshot's end; dropped items are
/// noted. Otherwise a bridge counts as one that read the log, and holds something else.
pub fn reading_guards_are_needed()
    ensures history { SameHistoryIsNeeded covers }
    ensures position { SamePositionIsNeeded covers }
    ensures gap { GapIsNeeded covers }
    ensures noting { NotingIsNeeded covers }
{}

/// Laws: an acknowledgement waits for the replicas, and is of the items in flight alone. Otherwise an answered change is lost, or a
/// change is never sent.
pub fn sending_guards_are_needed()
    ensures replicas { ReplicasAreNeeded covers }
    ensures count { CountIsNeeded covers }
    ensures rest { RestIsNeeded covers }
{}

/// Laws: a bridge that meets another history begins at its front, forgets what it consumed, and resends; otherwise items stay lost. It
/// does so for another history alone, and refills only then; otherwise it echoes.
pub fn meeting_guards_are_needed()
    ensures position { PositionIsNeeded covers }
    ensures consumed { ConsumedIsNeeded covers }
    ensures again { SendingAgainIsNeeded covers }
    ensures news { NewsIsNeeded covers }
    ensures need { NeedIsNeeded covers }
{}

/// Laws: a loss has to be seen, and a failover's replica must have what was waited for.
pub fn premises_are_needed()
    ensures seeing { SeeingIsNeeded covers }
    ensures choice { ChoiceIsNeeded covers }
{}

/// Laws: a change that a bridge held already isn't answered before a look that began after it, while something waits in the outbox, while
/// all has yet to be resent, or before the replicas have what the log has. Otherwise they may lack it.
pub fn known_guards_are_needed()
    ensures look { LookIsNeeded covers }
    ensures told { ToldIsNeeded covers }
    ensures owed { OwedIsNeeded covers }
    ensures wait { WaitIsNeeded covers }
{}
