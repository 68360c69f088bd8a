//! Other settings for RS beside its store, while processes run.

ghost use Rattle.std.specs.Prelude.{◌≡◌, Some};
ghost use Rattle.node_supervisor.specs.Renewal.{KeepsForNode};

use crate::processes::Processes;
use process_keeper::Keeper;
use rs_core::Rs;
use rs_settings::Settings;
use rs_store::RsStore;
use supervisor::{RenewalFault, renewed_keeper};

impl Processes {
    // Returns the keeper for RS once it has the settings, or why it won't have them; `None` before RS has begun.
    pub(crate) fn renewed_for(
        &self,
        node: &RsStore,
        settings: &Settings,
    ) -> Option<Result<Keeper, RenewalFault>>
        ensures { KeepsForNode node.now.services self.now.keeper settings.now result }
    {
        match node.services() {
            Some(rs) => renewed_by(&self.keeper, rs, settings),
            None => None,
        }
    }
}

#[tactic(auto, using(crate::proofs::RenewalLemmas::keeps_for))]
fn renewed_by(keeper: &Keeper, rs: &Rs, settings: &Settings) -> Option<Result<Keeper, RenewalFault>>
    ensures { KeepsForNode (Some rs.now) keeper.now settings.now result }
{
    Some(renewed_keeper(keeper, rs, settings))
}
