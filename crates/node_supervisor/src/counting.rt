//! How many services RS has.

ghost use Rattle.std.specs.Prelude.{◌≡◌, length};

use ds_names::Name;
use rs_core::Rs;

/// Returns how many services RS has: it has a state of each.
pub fn count_of(rs: &Rs) -> usize
    ensures services { result ≡ length rs.now.settings.services }
    ensures states { result ≡ length rs.now.states }
{
    let _ = rs.place_of(&Name::rs()); // its clause says so
    rs.settings().services().len()
}
