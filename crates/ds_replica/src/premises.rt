//! Proofs that laws need their premises.

ghost use Rattle.ds_replica.specs.WholePremises.{SnapshotNeeds, SinceNeeds, WholeNeeds};
ghost use Rattle.ds_replica.specs.PagePremises.{PagesNeed};
ghost use Rattle.ds_replica.specs.HolderPremises.{CatchUpNeeds, AgreementNeeds, LabelsNeed};
ghost use Rattle.ds_replica.specs.CheckPremises.{ChecksNeed};

/// A law: without any one of these premises, a law of wholeness is false. Stores that accepted one item show it.
pub fn whole_premises()
    ensures snapshot { SnapshotNeeds }
    ensures since { SinceNeeds }
    ensures whole { WholeNeeds }
{}

/// A law: without any one of these premises, the law of pages is false.
pub fn page_premises()
    ensures { PagesNeed }
{}

/// A law: without any one of these premises, a law of catching up, agreement, labels or checks is false.
pub fn holder_premises()
    ensures catch_up { CatchUpNeeds }
    ensures agreement { AgreementNeeds }
    ensures labels { LabelsNeed }
    ensures checks { ChecksNeed }
{}
