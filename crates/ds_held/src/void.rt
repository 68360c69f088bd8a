//! Dropping the changes that a floor voids.

ghost use Rattle.std.specs.Prelude.{◌≡◌, if◌then◌else◌, length, is_some};
ghost use Rattle.ds_entry.specs.Left.{value_of};
ghost use Rattle.ds_held.specs.Kept.{left_by_floor, marks_left, puts_void_by};

use crate::rows::Rows;
use ds_entry::{Body, Change, Floor};

// Drops the changes that a floor voids, the last first. It allocates nothing.
pub(crate) fn drop_void(changes: &mut Rows<Change>, floor: &Floor)
    ensures { changes.new ≡ left_by_floor floor.now changes.old }
{
    let mut i = changes.len();
    while i > 0 {
        i -= 1;
        if floor.voids(changes.at(i)) {
            changes.remove(i);
        }
    }
}

// Returns 1 for a put, 0 for a tombstone.
fn puts_in(change: &Change) -> usize
    ensures { result ≡ if is_some (value_of change.now) then 1 else 0 }
{
    match change.body() {
        Body::Put(_) => 1,
        Body::Gone => 0,
    }
}

// Drops the changes that a floor voids, with the marks beside them, in one walk from the last to the first, and
// returns how many of them were puts. It allocates nothing.
pub(crate) fn drop_beside<M: Drop>(
    changes: &mut Rows<Change>,
    marks: &mut Rows<M>,
    floor: &Floor,
) -> usize
    requires { length marks.old ≡ length changes.old }
    ensures changes { changes.new ≡ left_by_floor floor.now changes.old }
    ensures marks { marks.new ≡ marks_left floor.now changes.old marks.old }
    ensures count { result ≡ length (puts_void_by floor.now changes.old) }
{
    let mut count = 0;
    let mut i = changes.len();
    while i > 0 {
        i -= 1;
        let change = changes.at(i);
        if floor.voids(change) {
            count += puts_in(change);
            changes.remove(i);
            marks.remove(i);
        }
    }
    count
}
