//! The call that gives RS other settings.

ghost use Rattle.ds_c.specs.Renewing.{RenewsServices};

use crate::handle::Handle;
use crate::words::IS_CLOSED;
use c_rs::SettingsRefusal;
use std::alloc::Global;

/// Gives RS beside the store of an open handle, and its keepers, other settings, from a text. Returns 0, or the number of the first
/// refusal; `fault` says where a text is refused, or which service is left out while it is up or busy.
#[unsafe(no_mangle)]
pub extern "C" fn ds_rs_renew(
    alloc: Global,
    handle: &mut Handle,
    settings: &[u8],
    fault: &mut SettingsRefusal,
) -> u32
    ensures { RenewsServices handle.old.value settings.now fault.old result fault.new handle.new.value }
{
    match handle.take(alloc) {
        None => IS_CLOSED,
        Some(mut session) => {
            let word = session.renew_rs(alloc, settings, fault);
            handle.put(alloc, session);
            word
        }
    }
}
