//! Collecting items reply by reply.

ghost use Rattle.std.specs.Prelude.{◌≡◌, ◌≢◌, ◌∷◌, [], IfOk, OnErr};
ghost use Rattle.ds_machine.specs.declared.command.Scope.TheVariants.{Under};
ghost use Rattle.ds_replica.specs.Paged.{last_key};

use ds_entry::{Item, Items};
use ds_machine::Scope;
use ds_names::{Key, NoRoom};
use ds_pattern::Query;
use std::alloc::Global;

// Moves on to the key of a change.
fn go_past_item(key: &mut Option<Key>, item: &Item)
    ensures { key.new ≡ last_key key.old (item.now ∷ []) }
{
    match item {
        Item::Change(change) => *key = Some(*change.key()),
        Item::Floor(_) => {}
    }
}

/// Moves on to the key of the last change among the items, if there is one.
pub fn go_past(key: &mut Option<Key>, items: &Items)
    ensures { key.new ≡ last_key key.old items.now }
{
    for index in 0..items.len() {
        if let Some(item) = items.get(index) {
            go_past_item(key, item);
        }
    }
}

/// Returns the scope of a query. Fails only if memory runs out; the scope of an empty text takes none.
pub(crate) fn scope_of(alloc: Global, query: &Query) -> Result<Scope, NoRoom>
    ensures same { IfOk result (λ scope. scope ≡ Under query.now) }
    ensures room { OnErr result (query.now.text ≢ []) }
{
    Ok(Scope::Under(query.copy(alloc)?))
}
