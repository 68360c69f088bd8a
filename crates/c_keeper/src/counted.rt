//! Whether RS counts an instance as up.

ghost use Rattle.std.specs.Prelude.{◌≡◌, true, is_some, IfSome, IsNone};
ghost use Rattle.rs_core.specs.Late.{endpoint_in_force};
ghost use Rattle.rs_core.specs.State.{state_at};
ghost use Rattle.c_keeper.specs.Opening.{CountsNone};

use node_supervisor::count_of;
use rs_core::Rs;
use supervisor::endpoint_at;

/// Returns the first service of which RS counts an instance as up.
pub(crate) fn first_counted(rs: &Rs) -> Option<usize>
    ensures counted { IfSome result (λ k. is_some (endpoint_in_force (state_at rs.now k)) ≡ true) }
    ensures none { IsNone result → CountsNone rs.now }
{
    for k in 0..count_of(rs) {
        if endpoint_at(rs, k).is_some() {
            return Some(k);
        }
    }
    None
}
