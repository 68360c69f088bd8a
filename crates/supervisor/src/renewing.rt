//! Other settings while processes run.

ghost use Rattle.std.specs.Prelude.{◌≡◌, ◌≤◌, length, None, IfOk, IfErr, OnOk};
ghost use Rattle.rs_core.specs.Renewal.{renewal_fault};
ghost use Rattle.supervisor.specs.Renewal.{RefusesRenewal, first_left_busy, renewed_labels, sources_of};

use crate::fault::RenewalFault;
use arrayvec::ArrayVec;
use process_keeper::{Keeper, KeeperFault};
use rs_core::{RenewFault, Rs};
use rs_settings::{Services, Settings};

/// Returns the keeper of other settings' services, which takes this one's place once RS has the settings: a service keeps its processes
/// by its label, whatever its number is. An earlier run may have left processes of a new one.
///
/// Refuses what `Rs::renewal_fault` refuses. Then refuses as StillBusy if a service that the settings lack has a process, may have one of
/// an earlier run, or has a pending start. Then reports NoRoom, only for settings with a service.
pub fn renewed_keeper(keeper: &Keeper, rs: &Rs, settings: &Settings) -> Result<Keeper, RenewalFault>
    ensures labels { IfOk result (λ it. it.labels.items ≡ renewed_labels rs.now keeper.now.labels.items settings.now.services) }
    ensures generations { IfOk result (λ it. (it.next ≡ keeper.now.next) × (it.file ≡ keeper.now.file)) }
    ensures accepted { OnOk result (renewal_fault rs.now settings.now ≡ None) }
    ensures kept { OnOk result (first_left_busy rs.now keeper.now.labels.items settings.now ≡ None) }
    ensures refused { IfErr result (λ fault. RefusesRenewal rs.now keeper.now.labels.items settings.now fault) }
{
    if let Some(fault) = rs.renewal_fault(settings) {
        return Err(RenewalFault::Refused(fault));
    }
    let sources = sources_of(rs, settings.services());
    match keeper.renewed(sources.as_slice()) {
        Ok(renewed) => Ok(renewed),
        Err(KeeperFault::StillBusy(label)) => Err(RenewalFault::StillBusy(label)),
        Err(KeeperFault::NoRoom) => Err(RenewalFault::Refused(RenewFault::NoRoom)),
    }
}

// Returns the number that each service's label has now.
fn sources_of(rs: &Rs, services: &Services) -> ArrayVec<Option<usize>, 64>
    requires { length services.now ≤ 64 }
    ensures { result.items ≡ sources_of rs.now services.now }
{
    let mut sources = ArrayVec::new();
    for i in 0..services.len() {
        let Some(service) = services.get(i) else {
            unreachable!()
        };
        sources.push(rs.place_of(&service.label));
    }
    sources
}
