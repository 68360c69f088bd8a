//! Laws of the machine's steps and runs. They cite only its definitions.

ghost use Rattle.ds_machine.specs.Batches.{FreeAreTaken, FreeInParts, FreeAreAnswered, PlacesAreFree, OwedInParts};
ghost use Rattle.ds_machine.specs.Effect.{OpeningIsReached, StepsStayReached, RunsStayReached, StepHasEffect, GoesOnSame};
ghost use Rattle.ds_machine.specs.Effect.{GoesOnLater, StepsGoOn, RunsGoOn, HeldIsTop, LearntIsHeld, KnownStaysHeld};
ghost use Rattle.ds_machine.specs.Effect.{SweepLearnsEffect};
ghost use Rattle.ds_machine.specs.Examples.{PublishRow, SweepRow, RingRow, PageRow, ChangingPagesRow, LastPlaceRow};
ghost use Rattle.ds_machine.specs.FloorLaws.{AcceptedFloorStands, FloorStandsOverRuns};
ghost use Rattle.ds_machine.specs.Given.{GivenWasAccepted, FewAreDone};
ghost use Rattle.ds_machine.specs.OneStep.{StepsAreOne, OutcomesTakeNone, OneItemWantsAlike};
ghost use Rattle.ds_machine.specs.Says.{RefusedSays, ChangedSays, FoundSays, NamedSays, SweptSays};
ghost use Rattle.ds_machine.specs.Says.{SubscribedSays, CheckedSays, JournaledSays, SnappedSays, PagedSays};
ghost use Rattle.ds_machine.specs.Says.{MergedSays, MergeStoppedSays, OwedFits, OwedTells, RepliesFit};
ghost use Rattle.ds_machine.specs.SubscriptionLaws.{StepKeepsSubscription, RunKeepsSubscription, StepStampsSubscription};
ghost use Rattle.ds_machine.specs.SubscriptionLaws.{RunStampsSubscription, StampTells, SubscribedLeaves, CheckedLeaves};
ghost use Rattle.ds_machine.specs.Taken.{PlacesAreTaken};
ghost use Rattle.ds_machine.specs.Within.{OpeningIsWithin, StepsStayWithin, RunsStayWithin};

/// A law: the opening state is reached, and every step or run leads from a reached state to a reached one. In a reached
/// state, what is held is the top of the accepted items.
pub fn states_are_reached()
    ensures opening { OpeningIsReached }
    ensures steps { StepsStayReached }
    ensures runs { RunsStayReached }
    ensures held { HeldIsTop }
{}

/// A law: every state stays within its limits. It holds at most the allowed keys and floors, and no position or stamp
/// is above 2^62.
pub fn limits_are_kept()
    ensures opening { OpeningIsWithin }
    ensures steps { StepsStayWithin }
    ensures runs { RunsStayWithin }
{}

/// A law: a step either makes some of its command's items take effect, each of them news when its turn comes, or writes
/// the subscription that its command names. So the accepted list only grows; limits, incarnation, first position and
/// ring never change. Everything learnt is held, or an item that covers it is; everything held was learnt. A Sweep that
/// raises no floor makes none known.
pub fn steps_have_effects()
    ensures effect { StepHasEffect }
    ensures raised { SweepLearnsEffect }
    ensures goes_on { StepsGoOn }
    ensures runs { RunsGoOn }
    ensures same { GoesOnSame }
    ensures later { GoesOnLater }
    ensures learnt { LearntIsHeld }
    ensures known { KnownStaysHeld }
{}

/// A law: a subscription is unchanged by every step or run without a Subscribe or a Check of it. If it differs, its
/// stamp is above every stamp taken before. A Subscribe stores its query, with nothing shown under INITIAL; a Check
/// adds the items that it returns to those shown. Neither lets an item take effect.
pub fn subscriptions_are_kept()
    ensures step { StepKeepsSubscription }
    ensures run { RunKeepsSubscription }
    ensures step_stamp { StepStampsSubscription }
    ensures run_stamp { RunStampsSubscription }
    ensures tells { StampTells }
    ensures subscribed { SubscribedLeaves }
    ensures checked { CheckedLeaves }
{}

/// A law: while a floor is held, nothing that it makes void is held, and no command ever brings such a change.
pub fn floors_stand()
    ensures accepted { AcceptedFloorStands }
    ensures runs { FloorStandsOverRuns }
{}

/// A law: a refusal changes nothing, and a merge that stopped has merged its first items.
pub fn refusals_say()
    ensures refused { RefusedSays }
    ensures stopped { MergeStoppedSays }
{}

/// A law: what each reply but a refusal says about the states before and after it.
pub fn answers_say()
    ensures changed { ChangedSays }
    ensures found { FoundSays }
    ensures named { NamedSays }
    ensures swept { SweptSays }
    ensures subscribed { SubscribedSays }
    ensures checked { CheckedSays }
    ensures journaled { JournaledSays }
    ensures snapped { SnappedSays }
    ensures paged { PagedSays }
    ensures merged { MergedSays }
{}

/// A law: each command gets only its own kinds of reply. A mask fits the subscriptions' places, and has exactly the
/// bits of those that are owed something.
pub fn answers_fit()
    ensures replies { RepliesFit }
    ensures owed { OwedFits }
    ensures bits { OwedTells }
{}

/// A law: worked rows, computed. Refusals in their order, the floor of a dead driver, a ring of two, pages, pages
/// between which the store changes, and the last position.
pub fn rows_are_answered()
    ensures publish { PublishRow }
    ensures sweep { SweepRow }
    ensures ring { RingRow }
    ensures pages { PageRow }
    ensures changing { ChangingPagesRow }
    ensures last { LastPlaceRow }
{}

/// A law: the state, the command and the point where memory ran out determine the step. That point is nowhere, the
/// whole command, or after some items of a Merge. A one-item Merge that is out of memory changes and owes nothing, in
/// either form of reply.
pub fn steps_are_one()
    ensures one { StepsAreOne }
    ensures outcome { OutcomesTakeNone }
    ensures single { OneItemWantsAlike }
{}

/// A law: every item that a reply shows was accepted before, and a stopped Merge has done at most 256 items.
pub fn given_was_accepted()
    ensures given { GivenWasAccepted }
    ensures few { FewAreDone }
{}

/// A law: if no floor was accepted and enough positions are left, changes of distinct keys that each replace a held one
/// take effect.
pub fn places_are_taken()
    ensures free { PlacesAreFree }
    ensures taken { PlacesAreTaken }
{}

/// A law: if no cause applies to any of the items when its turn comes, a Merge takes all of them, at once or in parts.
/// What is owed for the parts is what is owed for the whole.
pub fn free_items_are_taken()
    ensures taken { FreeAreTaken }
    ensures parts { FreeInParts }
    ensures answered { FreeAreAnswered }
    ensures owed { OwedInParts }
{}
