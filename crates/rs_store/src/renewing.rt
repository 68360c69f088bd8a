//! Other settings for RS, once it has begun.

ghost use Rattle.rs_store.specs.Renewing.{Renews};

use rs_core::{RenewFault, Rs};
use rs_settings::Settings;

// Gives RS other settings, or returns `None` if RS hasn't begun.
pub(crate) fn renew(services: &mut Option<Rs>, settings: Settings) -> Option<Result<(), RenewFault>>
    ensures { Renews services.old settings result services.new }
{
    match services {
        Some(rs) => Some(rs.renew(settings)),
        None => None,
    }
}
