//! The laws of a bridge's calls.

ghost use Rattle.c_bridge.specs.Happening.{AcknowledgingHappens, AskingHappens, FetchingHappens, GatheringHappens, ConsumingHappens};
ghost use Rattle.c_bridge.specs.Happening.{MeetingHappens, OpeningHappens, OthersHappen, ReadingHappens, RefillingHappens};

/// Laws: a question, a reading and an answer are one event of the rule each, on the store, its dead letters and the decisions together.
/// Opening and gathering are one for each item that took effect, and a fold if all that is held is gathered; a refill is two. An entry is
/// none, until its reading ends. So the rule's laws hold of hosts whose bridges do nothing else.
pub fn calls_happen()
    ensures opening { OpeningHappens }
    ensures gathering { GatheringHappens }
    ensures asking { AskingHappens }
    ensures refilling { RefillingHappens }
    ensures reading { ReadingHappens }
    ensures meeting { MeetingHappens }
    ensures acknowledging { AcknowledgingHappens }
    ensures fetching { FetchingHappens }
    ensures consuming { ConsumingHappens }
    ensures others { OthersHappen }
{}
