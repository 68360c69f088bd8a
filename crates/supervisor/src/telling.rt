//! Telling RS an event.

ghost use Rattle.std.specs.Prelude.{◌≡◌, IfOk, IfErr, OnErr};
ghost use Rattle.supervisor.specs.Telling.{IsRefusedBy, Told, is_held, next_after_start};

use crate::fault::SupervisorFault;
use crate::supervisor::Supervisor;
use ds_names::NoRoom;
use process_keeper::Keeper;
use rs_core::{Actions, Event, Plan, RsFault};

impl Supervisor {
    // Tells RS the event, and counts the generation of an instance that it starts. Labels don't change.
    pub(crate) fn tell(&mut self, event: Event, tick: u64) -> Result<Actions, SupervisorFault>
        ensures told { IfOk result (λ actions.
            Told self.old.rs self.old.keeper.next self.old.keeper.file event tick actions self.new.rs self.new.keeper.next) }
        ensures labels { self.new.keeper.labels.items ≡ self.old.keeper.labels.items }
        ensures file { self.new.keeper.file ≡ self.old.keeper.file }
        ensures refused { IfErr result (λ fault. IsRefusedBy self.old.rs self.old.keeper.next self.old.keeper.file event tick fault) }
        ensures unchanged { OnErr result ((self.new.rs ≡ self.old.rs) × (self.new.keeper ≡ self.old.keeper)) }
    {
        match self.rs.plan(&event, tick) {
            Ok(plan) => {
                if is_held(&self.keeper, &plan) {
                    return Err(SupervisorFault::Unwritten);
                }
                let before = self.rs.next_generation();
                match self.rs.carry_out(plan) {
                    Ok(actions) => {
                        count_start(&mut self.keeper, before, self.rs.next_generation());
                        Ok(actions)
                    }
                    Err(NoRoom) => Err(SupervisorFault::Refused(RsFault::NoRoom)),
                }
            }
            Err(fault) => Err(SupervisorFault::Refused(fault)),
        }
    }
}

/// Returns whether the plan starts an instance, and the file isn't ahead.
pub fn is_held(keeper: &Keeper, plan: &Plan) -> bool
    ensures { result ≡ is_held plan.now keeper.now.next keeper.now.file }
{
    plan.starts() && !keeper.may_give()
}

/// Counts the generation of a start, if there was one: RS's next generation before and after says so.
#[tactic(auto, using(std::proofs::lemmas::Bool::Decides::nat_tests))]
pub fn count_start(keeper: &mut Keeper, before: u32, after: u32)
    ensures next { keeper.new.next ≡ next_after_start before after keeper.old.next keeper.old.file }
    ensures file { keeper.new.file ≡ keeper.old.file }
    ensures labels { keeper.new.labels.items ≡ keeper.old.labels.items }
{
    if before >= after {
        return;
    }
    keeper.give();
}
