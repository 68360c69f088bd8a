//! The laws of holders.

ghost use Rattle.holders.specs.Agree.{AllAgree, HeldIsTopOfKnown, HeldCoversKnown, TwoAgree, TwoAgreeByHeld};
ghost use Rattle.holders.specs.NoOlder.{LabelsAreNoOlder};
ghost use Rattle.holders.specs.Premises.{CoveringIsNeeded, ExactIsNeeded, LabelsNeedCovering, PremisesHold};
ghost use Rattle.holders.specs.Premises.{StoreLabelsNeedCovering, StoresAgree, StoresNeedCovering, StoresNeedExact};
ghost use Rattle.holders.specs.ReaderPremises.{NothingElseIsNeeded, ReaderPremisesHold, ReadingIsNeeded};
ghost use Rattle.holders.specs.Readers.{JournalIsWhole, ReadersAgree};

/// A law: any two holders hold the same under a query if what they were brought is exact there, or what they hold, and each was brought
/// what covers the other's. A holder is a store with any turns since it was empty, a state that a store's history leads to, or a map with
/// any takes.
pub fn two_holders_agree()
    ensures top { HeldIsTopOfKnown }
    ensures two { TwoAgree }
    ensures held { TwoAgreeByHeld }
    ensures given { HeldCoversKnown }
    ensures all { AllAgree }
{}

/// A law: any number of holders that read each other's stores whole hold the same under the query, if what they were brought before is
/// exact there. A store is read whole by pages or by checks, or by its journal from the first position on.
pub fn readers_agree()
    ensures agree { ReadersAgree }
    ensures journal { JournalIsWhole }
    ensures reading { ReadingIsNeeded }
    ensures nothing_else { NothingElseIsNeeded }
    ensures hold { ReaderPremisesHold }
{}

/// A law: a map names no older generation of a label than any of those that its takes cover, exact or not.
pub fn labels_are_no_older()
    ensures { LabelsAreNoOlder }
{}

/// A law: without one of its two premises, agreement is false of two maps, and of two stores; without covering, a map's label is older.
/// Both premises hold of two maps, and of two stores, that take different items.
pub fn two_premises_are_needed()
    ensures exact { ExactIsNeeded }
    ensures covering { CoveringIsNeeded }
    ensures labels { LabelsNeedCovering }
    ensures hold { PremisesHold }
    ensures exact_stores { StoresNeedExact }
    ensures covering_stores { StoresNeedCovering }
    ensures labels_stores { StoreLabelsNeedCovering }
    ensures hold_stores { StoresAgree }
{}
