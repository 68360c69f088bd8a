//! Putting a change, and updating the index of labels.

ghost use Rattle.std.specs.Prelude.{◌≡◌, Ok, None, OnOk, OnErr};
ghost use Rattle.std.specs.Option.{option_map};
ghost use Rattle.ds_names.specs.declared.kind.Kind.{Kind};
ghost use Rattle.ds_entry.specs.Change.{ChangeRecord, IsChange};
ghost use Rattle.ds_join.specs.declared.merge.Merge.TheVariants.{Taken};
ghost use Rattle.ds_held.specs.Held.{held_changes, held_for, IsSound};
ghost use Rattle.ds_held.specs.Kept.{IsPlace};
ghost use Rattle.ds_held.specs.Merge.{MergeAnswer};
ghost use Rattle.ds_index.specs.Put.{IsPutMarked};
ghost use Rattle.ds_index.specs.Named.{named_at};
ghost use Rattle.ds_index.specs.Indexed.{endpoint_left, IsIndexed};

use crate::index::Index;
use crate::marked::Marked;
use crate::named::{Named, endpoint_in};
use ds_entry::Change;
use ds_names::{Key, NoRoom};

// Returns the index's element of a held label, by the label's place.
fn listed_at<M: Drop>(marked: &Marked<M>, place: Result<usize, usize>, key: &Key) -> Option<Named>
    requires { IsPlace (held_changes marked.now.held) key.now place }
    ensures { result ≡ option_map (λ (c : ChangeRecord). named_at (endpoint_left c) key.now.name) (held_for marked.now.held key.now) }
{
    let (change, _) = marked.get_at(place)?;
    Some(Named {
        endpoint: endpoint_in(change),
        name: key.name,
    })
}

// Puts the change of a label, with its mark, at its place, and updates the index. For a held label, the index
// allocates nothing.
fn put_label<M: Drop>(
    marked: &mut Marked<M>,
    index: &mut Index,
    place: Result<usize, usize>,
    change: Change,
    mark: M,
) -> Result<(), NoRoom>
    requires indexed { IsIndexed marked.old.held.changes index.old.names }
    requires place { IsPlace (held_changes marked.old.held) change.key place }
    requires taken { MergeAnswer marked.old.held change (Ok Taken) }
    requires label { change.key.kind ≡ Kind.Label }
    ensures put { OnOk result (IsPutMarked marked.old change mark marked.new) }
    ensures same { OnErr result (marked.new ≡ marked.old) }
    ensures new { OnErr result (held_for marked.old.held change.key ≡ None) }
    ensures sound { IsSound marked.new.held }
    ensures indexed { IsIndexed marked.new.held.changes index.new.names }
{
    let _held = marked.held();
    let listed = listed_at(marked, place, change.key());
    if listed.is_none() {
        index.reserve()?;
    }
    let named = Named {
        endpoint: endpoint_in(&change),
        name: change.key().name,
    };
    marked.put_at(place, change, mark)?;
    match listed {
        Some(before) => index.replace(&before, named),
        None => index.add(named),
    }
    Ok(())
}

// Puts a change, with its mark, at its place, and updates the index if it is a label's.
pub(super) fn put_indexed<M: Drop>(
    marked: &mut Marked<M>,
    index: &mut Index,
    place: Result<usize, usize>,
    change: Change,
    mark: M,
) -> Result<(), NoRoom>
    requires indexed { IsIndexed marked.old.held.changes index.old.names }
    requires place { IsPlace (held_changes marked.old.held) change.key place }
    requires taken { MergeAnswer marked.old.held change (Ok Taken) }
    ensures put { OnOk result (IsPutMarked marked.old change mark marked.new) }
    ensures same { OnErr result (marked.new ≡ marked.old) }
    ensures new { OnErr result (held_for marked.old.held change.key ≡ None) }
    ensures sound { IsSound marked.new.held }
    ensures change { IsChange change }
    ensures indexed { IsIndexed marked.new.held.changes index.new.names }
{
    let key = change.key();
    if key.kind.is_label() {
        put_label(marked, index, place, change, mark)
    } else {
        marked.put_at(place, change, mark)
    }
}
