//! The laws of systems, over definitions only.

ghost use Rattle.ds_system.specs.Laws.{SystemsKeepLaws};
ghost use Rattle.ds_system.specs.Start.{NewSystemsExist};
ghost use Rattle.ds_system.specs.Sending.{NoSendToOlder, LabelsAreApart};
ghost use Rattle.ds_system.specs.Wrong.{WrongTurns};

/// A law of every list of events of a system, with no premise but that its settings were checked. What RS and the
/// services made, and what Asks brought into the stores, is single-numbered, and each number was drawn once. So
/// replicas and maps that know the same hold the same; a map that has all of a store holds what the store holds, and
/// its labels name no older generation; and no delivery is stopped by a clash or by another owner. For all such
/// settings there is a new system.
pub fn systems_keep_laws()
    ensures start { NewSystemsExist }
    ensures laws { SystemsKeepLaws }
{}

/// A law of every turn of a driver table, whatever happened since the system was new. Each Send and Start goes to no
/// older generation than the map has of its label, nor than an earlier one under that label; it goes to the map's own
/// endpoint unless that is passed over. An old tombstone changes nothing, and what was followed to its end is known. No
/// label has units at both servers, so neither sends anything under a label of the other.
pub fn tables_send_to_no_older()
    ensures sends { NoSendToOlder }
    ensures apart { LabelsAreApart }
{}

/// A law: seven wrong turns are refused. A table does nothing; it sends a pending request again, or a new one, to an
/// endpoint that its map no longer has; it sends a request to a driver that its map says is gone; it follows another
/// map; it takes an old tombstone for an end; it returns to an instance before one that it sent to.
pub fn wrong_turns_are_refused()
    ensures { WrongTurns }
{}
