//! Laws over every list of events of a world. They cite only definitions.

ghost use Rattle.ds_replica.specs.Bringing.{EventsBringItems};
ghost use Rattle.ds_replica.specs.CaughtUp.{WholeIsAll, HoldsTheStoresInWorlds, HoldsAtLeastInWorlds, LabelsAreNewestInWorlds};
ghost use Rattle.ds_replica.specs.Checks.{ChecksAreWholeInWorlds};
ghost use Rattle.ds_replica.specs.Growth.{NewsAreNew, LaterIsFront};
ghost use Rattle.ds_replica.specs.Headline.{AccountFitsAtStart, EventsFit, EqualWhereKnown};
ghost use Rattle.ds_replica.specs.Headline.{EqualOverEvents, NothingClashesInWorlds, NothingStopsInWorlds};
ghost use Rattle.ds_replica.specs.Messages.{SnapshotIsWholeInWorlds, SinceIsTurn, SinceExtendsInWorlds, PageIsTurn, CheckIsTurn};
ghost use Rattle.ds_replica.specs.Rows.{ReplicasConverge, ReplicasDiffer, MapsCatchUp, MapsLag};
ghost use Rattle.ds_replica.specs.Rows.{MapsLead, ReplicasClash, MapsClash, OwnersChange};
ghost use Rattle.ds_replica.specs.Turns.{TurnsAreRunInWorlds, WholeStaysInWorlds, KnownStays};
ghost use Rattle.ds_replica.specs.Turns.{NothingBelowFloorsInWorlds, FloorsStandInWorlds};

/// A law: the empty account fits a world that was just made, and after any events the account that they extend fits.
pub fn accounts_fit()
    ensures start { AccountFitsAtStart }
    ensures events { EventsFit }
{}

/// A law: after any events, replicas and maps that know the same under a query hold the same under it, if everything
/// brought is exact.
///
/// Changes are exact if no two of one key, owner and version have two bodies. They are single-numbered if, besides, each
/// key has one owner. If everything brought is single-numbered, nothing held or on its way contradicts anything else, and
/// no delivery stops by a clash or another owner.
pub fn holders_agree()
    ensures equal { EqualWhereKnown }
    ensures over_events { EqualOverEvents }
    ensures clashes { NothingClashesInWorlds }
    ensures stops { NothingStopsInWorlds }
{}

/// A law: a map that took everything that a store accepted under the map's query, and nothing that the store doesn't know,
/// holds exactly what the store holds under the query, if everything brought is exact.
///
/// The map's labels then have no older generation than the store knows. A map that took more holds at least that.
pub fn maps_catch_up()
    ensures all { WholeIsAll }
    ensures exact { HoldsTheStoresInWorlds }
    ensures least { HoldsAtLeastInWorlds }
    ensures labels { LabelsAreNewestInWorlds }
{}

/// A law: everything that Asks bring in keeps the rules of changes and floors, if the commands' parts are in their
/// ranges.
pub fn items_are_brought()
    ensures events { EventsBringItems }
{}

/// A law: a store's turns among the events are a run of its machine, and items that are whole for it stay whole.
///
/// None of its messages leaves anything out. Snapshots and the journal are whole, and pages and checks meet the premises of
/// the laws of pages and checks.
pub fn messages_are_whole()
    ensures turns { TurnsAreRunInWorlds }
    ensures stays { WholeStaysInWorlds }
    ensures snapshot { SnapshotIsWholeInWorlds }
    ensures since { SinceIsTurn }
    ensures extends { SinceExtendsInWorlds }
    ensures page { PageIsTurn }
    ensures check { CheckIsTurn }
    ensures checks { ChecksAreWholeInWorlds }
{}

/// A law: the items that take effect at a store are new, as the laws of checks require. The feed of a later state continues
/// the feed of an earlier one, as the laws of wholeness require.
pub fn stores_grow()
    ensures news { NewsAreNew }
    ensures front { LaterIsFront }
{}

/// A law: a holder forgets nothing until it is emptied. If it knows a floor, it holds nothing that the floor makes
/// void, and no event brings such a change in.
pub fn floors_stand()
    ensures known { KnownStays }
    ensures below { NothingBelowFloorsInWorlds }
    ensures events { FloorsStandInWorlds }
{}

/// Laws by example.
///
/// In some rows two replicas end up knowing and holding the same, and a map has all of a store and its label. In others one
/// condition of the laws is missing, and the conclusion fails: the replicas don't know the same, the map didn't take
/// everything or took more, or what a replica or map took contradicts itself. In the last row a key returns with another
/// owner, so that everything brought is exact but not single-numbered.
pub fn rows_happen()
    ensures converge { ReplicasConverge }
    ensures differ { ReplicasDiffer }
    ensures catch_up { MapsCatchUp }
    ensures lag { MapsLag }
    ensures lead { MapsLead }
    ensures clash { ReplicasClash }
    ensures map_clash { MapsClash }
    ensures renew { OwnersChange }
{}
