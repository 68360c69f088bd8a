//! A change with its mark.

ghost use Rattle.std.specs.Prelude.{◌≡◌, IfSome, slice_get};
ghost use Rattle.std.specs.Option.{option_map};
ghost use Rattle.ds_entry.specs.Change.{IsChange};
ghost use Rattle.ds_held.specs.Held.{held_changes};
ghost use Rattle.ds_index.specs.Beside.{IsBeside};

use ds_entry::Change;
use ds_held::{Held, Rows};

// Returns the change at an index, and its mark.
pub(super) fn pair_at<'a, M: Drop>(
    held: &'a Held,
    marks: &'a Rows<M>,
    index: usize,
) -> Option<(&'a Change, &'a M)>
    requires { IsBeside held.now marks.now }
    ensures change { option_map (λ p. p.0.now) result ≡ slice_get (held_changes held.now) index }
    ensures mark { option_map (λ p. p.1.now) result ≡ slice_get marks.now index }
    ensures valid { IfSome result (λ p. IsChange p.0.now) }
{
    match held.at(index) {
        Some(change) => match marks.get(index) {
            Some(mark) => Some((change, mark)),
            None => None,
        },
        None => None,
    }
}
