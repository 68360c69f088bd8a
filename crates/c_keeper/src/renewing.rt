//! Other settings for RS, from a text, and the processes of its services.

ghost use Rattle.std.specs.Prelude.{◌≡◌};
ghost use Rattle.c_keeper.specs.Renewing.{RenewsKeptBy, RenewsSession, fault_after_refusal, renewal_fault_number};

use crate::session::KeeperSession;
use crate::words::{DONE, IS_BUSY, NOT_FOUND};
use c_rs::{RsSession, SettingsRefusal, cause_number, fault_after, renewal_number, service_number};
use node_supervisor::Processes;
use rs_settings::read_any;
use std::alloc::Global;
use supervisor::RenewalFault;

impl KeeperSession {
    /// Gives RS other settings, from a text, as a session without keepers does. Keepers take them in the same call: a service whose label
    /// stays keeps its processes, whatever its number is. Of a new one an earlier run may have left processes.
    ///
    /// Returns 0, or the number of the first refusal: those of `RsSession::renew_rs` in their order, and IsBusy after AlreadyUp and before
    /// NoRoom, for a service that isn't in the text and has processes, may have some of an earlier run, or has a pending start; `fault` has
    /// its index in the settings in force. A refused call changes nothing else.
    pub fn renew_rs(&mut self, alloc: Global, text: &[u8], fault: &mut SettingsRefusal) -> u32
        ensures { RenewsSession text.now self.old fault.old result fault.new self.new }
    {
        match &mut self.processes {
            Some(processes) => renew_kept(&mut self.rs, processes, alloc, text, fault),
            None => self.rs.renew_rs(alloc, text, fault),
        }
    }
}

// Gives RS and the keepers other settings.
fn renew_kept(
    rs: &mut RsSession,
    processes: &mut Processes,
    alloc: Global,
    text: &[u8],
    fault: &mut SettingsRefusal,
) -> u32
    ensures { RenewsKeptBy rs.old.session.node.services text.now rs.old processes.old fault.old result fault.new rs.new processes.new }
{
    if rs.session.node.services().is_none() {
        return NOT_FOUND;
    }
    match read_any(alloc, text) {
        Ok(settings) => match processes.renew(&mut rs.session.node, settings) {
            Some(Ok(())) => {
                rs.forget_last();
                DONE
            }
            Some(Err(why)) => {
                *fault = fault_after_refusal(*fault, why);
                renewal_fault_number(why)
            }
            None => NOT_FOUND,
        },
        Err(why) => {
            *fault = SettingsRefusal::of(alloc, text, why);
            cause_number(why.cause)
        }
    }
}

// Returns the number of a fault against settings.
fn renewal_fault_number(fault: RenewalFault) -> u32
    ensures { result ≡ renewal_fault_number fault }
{
    match fault {
        RenewalFault::Refused(fault) => renewal_number(fault),
        RenewalFault::StillBusy(_) => IS_BUSY,
    }
}

// Returns what the place of the fault holds after a refusal: the service that is still up or busy, or what it held.
fn fault_after_refusal(before: SettingsRefusal, fault: RenewalFault) -> SettingsRefusal
    ensures { result ≡ fault_after_refusal before fault }
{
    match fault {
        RenewalFault::Refused(fault) => fault_after(before, fault),
        RenewalFault::StillBusy(index) => SettingsRefusal {
            line: 0,
            cause: IS_BUSY,
            service: service_number(Some(index)),
        },
    }
}
