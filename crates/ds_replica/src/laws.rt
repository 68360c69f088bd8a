//! The laws of items that leave out nothing that a store accepted, and of the holders that take them.

ghost use Rattle.ds_replica.specs.WholeLaws.{SnapshotIsWhole, SinceExtends, SincesExtend, NothingIsWhole, MoreIsWhole};
ghost use Rattle.ds_replica.specs.WholeLaws.{EarlierIsWhole, NarrowerIsWhole, WholeStays, FeedsGrow};
ghost use Rattle.ds_replica.specs.PageLaws.{PagesAreWhole};
ghost use Rattle.ds_replica.specs.CatchUp.{HoldsTheStores, HoldsAlike, HoldsATop, HoldsAtLeast};
ghost use Rattle.ds_replica.specs.CatchUp.{AnyHolderHoldsTheStores, MapHoldsItsQuery, GivenIsSent};
ghost use Rattle.ds_replica.specs.Taking.{HolderTakes, NewMapIsMap, MapsTake};
ghost use Rattle.ds_replica.specs.Following.{FollowsFromSnapshot, FollowsFromPages};
ghost use Rattle.ds_replica.specs.Agreement.{HoldersAgree, TopUnderQuery, JoinOfHolders, JoinUnderQuery, MoreIsHeld};
ghost use Rattle.ds_replica.specs.Labels.{NothingOlderIsHeld, NoOlderLabelIsHeld, LabelsAreNewest};
ghost use Rattle.ds_replica.specs.Accepting.{OneByOneIsNew};
ghost use Rattle.ds_replica.specs.CheckLaws.{ChecksAreWhole, ChecksGoOn};
ghost use Rattle.ds_replica.specs.TurnLaws.{ChecksGrow, SincesGrow, PagesGrow, FewerReachTheEnd, CheckedIsWhole, PagedIsWhole};

/// Laws of wholeness.
///
/// A snapshot is whole up to its cursor. With the items that the journal returns from there, it is whole up to the
/// returned cursor. Whole items stay whole if more are added, for an earlier position, for a narrower query, and when more
/// takes effect.
pub fn whole_laws()
    ensures snapshot { SnapshotIsWhole }
    ensures since { SinceExtends }
    ensures sinces { SincesExtend }
    ensures nothing { NothingIsWhole }
    ensures more { MoreIsWhole }
    ensures earlier { EarlierIsWhole }
    ensures narrower { NarrowerIsWhole }
    ensures stays { WholeStays }
    ensures feeds { FeedsGrow }
{}

/// A law of pages.
///
/// All pages, with the items that the journal returns from the first page's cursor on, are whole up to the returned
/// cursor. Changes and floors may take effect between the pages.
pub fn page_laws()
    ensures pages { PagesAreWhole }
{}

/// Laws of taking items.
///
/// A holder that merges items knows from then on everything that they stand for. A map knows what the items under its
/// query stand for.
pub fn taking_laws()
    ensures holder { HolderTakes }
    ensures new_map { NewMapIsMap }
    ensures map { MapsTake }
{}

/// Laws of catching up.
///
/// A map takes items that are whole up to a store's position. If the store's items cover all that the map learnt, without
/// contradictions, the map holds exactly what the store holds under its query. Otherwise it holds at least that.
pub fn catch_up_laws()
    ensures exact { HoldsTheStores }
    ensures alike { HoldsAlike }
    ensures top { HoldsATop }
    ensures least { HoldsAtLeast }
    ensures holder { AnyHolderHoldsTheStores }
    ensures query { MapHoldsItsQuery }
    ensures sent { GivenIsSent }
    ensures snapshot { FollowsFromSnapshot }
    ensures pages { FollowsFromPages }
{}

/// Laws of agreement.
///
/// Holders that know the same under a query hold the same under it. The join of two holdings is the top of everything
/// that either holder knows.
pub fn agreement_laws()
    ensures equal { HoldersAgree }
    ensures query { TopUnderQuery }
    ensures join { JoinOfHolders }
    ensures join_query { JoinUnderQuery }
    ensures more { MoreIsHeld }
{}

/// Laws of generations.
///
/// If a known change isn't void, no older change of its key is held. Labels are never void. The held label has the
/// endpoint of the greatest known generation, or none if that one is gone.
pub fn label_laws()
    ensures older { NothingOlderIsHeld }
    ensures older_label { NoOlderLabelIsHeld }
    ensures newest { LabelsAreNewest }
{}

/// Laws of checks.
///
/// The checks of a subscription end with one that returns fewer items than it may. If nothing counted as shown at first,
/// their items are whole up to that last check. If some items counted as shown, the checks' items are whole together with
/// items that were whole when the subscription began. Both laws need that no item that took effect meanwhile was covered
/// by one before it.
pub fn check_laws()
    ensures checks { ChecksAreWhole }
    ensures later { ChecksGoOn }
    ensures accepted { OneByOneIsNew }
{}

/// Laws of a reader that continues check by check, reply by reply or page by page.
///
/// A list of calls stays valid when the store accepts more, and can be extended by one call. The store has accepted all
/// items that the calls returned. The laws of checks and of pages hold for these items, even if the store is taken to
/// know more than it did at each call. A reply of the journal with fewer items than `max` reaches the store's position.
pub fn turn_laws()
    ensures checks { ChecksGrow }
    ensures sinces { SincesGrow }
    ensures pages { PagesGrow }
    ensures ends { FewerReachTheEnd }
    ensures checked { CheckedIsWhole }
    ensures paged { PagedIsWhole }
{}
