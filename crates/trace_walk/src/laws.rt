//! Laws of traces, stated over definitions alone.

ghost use Rattle.trace_walk.specs.History.{LegalIsHistory, RunIsLegal};
ghost use Rattle.trace_walk.specs.OneReply.{FirstLinesTell, OfferLinesTell, ReplyIsOne, TracedStays};
ghost use Rattle.trace_walk.specs.Sweep.{TombstonesAreFree, TombstonesAreTaken};
ghost use Rattle.trace_walk.specs.Upgrade.{UpgradedIsLegal};
ghost use Rattle.trace_walk.specs.Walk.{HeadersBegin, BadHeadersAreWrong, BadHeadsAreWrong, EntriesLead};
ghost use Rattle.trace_walk.specs.Walk.{NoReplyAfterEntries, PlusPlaces, ReplyPlaces, WithinReplies};

/// A law: a header is a legal trace, which continues from the state that it opens, and a first line that isn't a header
/// is the first wrong line.
pub fn headers_are_judged()
    ensures begin { HeadersBegin }
    ensures wrong { BadHeadersAreWrong }
{}

/// A law: after an entry, no reply line may follow, and a line that isn't the first line of an entry, or is too long,
/// is the first wrong line.
pub fn heads_are_judged()
    ensures wrong { BadHeadsAreWrong }
    ensures place { NoReplyAfterEntries }
{}

/// A law: the first line of a reply determines whether memory ran out and after how many items; an offer's, only
/// whether it did.
pub fn first_lines_tell()
    ensures merge { FirstLinesTell }
    ensures offer { OfferLinesTell }
{}

/// A law: a reply has one text. Two steps from one state by one entry's command, with replies that begin with the same
/// line, have replies of the same text and lead to the same state.
pub fn replies_are_one()
    ensures { ReplyIsOne }
{}

/// A law: a step of the store with one more entry leads the walk to the place after that entry. No other entry has its
/// text and leads elsewhere.
pub fn entries_lead_on()
    ensures { EntriesLead }
{}

/// A law: if no floor is held and positions are left, nothing refuses the tombstones of a sweep of format 1, so a Merge
/// takes all of them.
pub fn tombstones_are_taken()
    ensures free { TombstonesAreFree }
    ensures taken { TombstonesAreTaken }
{}

/// A law: an entry leads from a state that a trace may lead to, to such a state.
pub fn traced_states_stay()
    ensures { TracedStays }
{}

/// A law: within an entry, some legal trace continues, none ends after the entry's start, and a line that may not
/// follow is the first wrong line. After some items of a Merge another item must follow, after a command the first line
/// of a reply, and after some lines of a reply its next line.
pub fn places_are_judged()
    ensures plus { PlusPlaces }
    ensures reply { ReplyPlaces }
    ensures within { WithinReplies }
{}

/// A law: a written run of the machine is a legal trace, and a legal trace is a history of the machine: its commands,
/// with its replies, are a run from the state that its header opens.
pub fn traces_are_histories()
    ensures legal { RunIsLegal }
    ensures history { LegalIsHistory }
{}

/// A law: the upgrade of a legal trace of format 1 is a legal trace of format 2 that leads to the same state, hence the
/// same accepted items, stamps and shown items.
pub fn upgraded_traces_are_legal()
    ensures { UpgradedIsLegal }
{}
