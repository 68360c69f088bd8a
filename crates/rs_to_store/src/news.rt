//! What a map tells of a label.

ghost use Rattle.std.specs.Prelude.{◌≡◌};
ghost use Rattle.ds_names.specs.Key.{label_key};
ghost use Rattle.ds_held.specs.Held.{held_items};
ghost use Rattle.ds_machine.specs.Parts.{held_at};
ghost use Rattle.driver_tables.specs.Label.{newest};
ghost use Rattle.driver_tables.specs.DriverTable.{DriverTable};
ghost use Rattle.driver_tables.specs.Stands.{TableStands};
ghost use Rattle.rs_to_store.specs.News.{is_below_newest, newest_for, told, told_by};

use driver_tables::Drivers;
use ds_entry::{Body, Change, Value};
use ds_names::{Endpoint, Generation, Key, Kind, Name};
use ds_submap::SubMap;

// Returns the state that a map tells a table of a label: its driver's endpoint now, or that it has no driver. `None` if the
// map holds no change of the label, or an old tombstone. It takes no memory.
pub(crate) fn told<T: Drivers>(table: &T, map: &SubMap, label: &Name) -> Option<Option<Endpoint>>
    ensures { (t : DriverTable) → TableStands (T.kept table.now) t →
        result ≡ told (newest t.states label.now) (held_at (held_items map.now.held) (label_key label.now)) }
{
    let _held = map.held();
    let key = Key {
        name: *label,
        kind: Kind::Label,
    };
    match map.get(&key) {
        Some(change) => told_by(change, newest_for(change.body(), table, label)),
        None => None,
    }
}

// Returns the newest generation that the table knows of a label, if the body is a tombstone, which is compared with it. `None` for a put.
fn newest_for<T: Drivers>(body: &Body, table: &T, label: &Name) -> Option<Generation>
    ensures { (t : DriverTable) → TableStands (T.kept table.now) t → result ≡ newest_for body.now (newest t.states label.now) }
{
    match body {
        Body::Put(_) => None,
        Body::Gone => table.newest(label),
    }
}

// Returns the state that a change tells of its label.
fn told_by(change: &Change, newest: Option<Generation>) -> Option<Option<Endpoint>>
    ensures { result ≡ told_by newest change.now }
{
    match change.body() {
        Body::Put(Value::Label(endpoint)) => Some(Some(*endpoint)),
        Body::Put(_) => Some(None),
        Body::Gone if is_below(change.version().epoch, newest) => None,
        Body::Gone => Some(None),
    }
}

// Returns whether a generation is below the newest, if there is a newest.
fn is_below(generation: Generation, newest: Option<Generation>) -> bool
    ensures { result ≡ is_below_newest newest generation }
{
    match newest {
        Some(newest) => generation.number() < newest.number(),
        None => false,
    }
}
