//! The label's instance that RS counts as up, by the state of its processes.

ghost use Rattle.std.specs.Prelude.{◌≡◌, ◌⊎◌, true, false, Some, None, IfSome, IsNone};
ghost use Rattle.process_keeper.specs.Order.{AcceptsAt};
ghost use Rattle.process_keeper.specs.declared.input.Input.TheVariants.{Failed};
ghost use Rattle.rs_core.specs.Late.{endpoint_in_force};
ghost use Rattle.rs_core.specs.State.{state_at};
ghost use Rattle.supervisor.specs.Telling.{IsDeadAt, NoneDied};

use crate::following::endpoint_at;
use ds_names::Endpoint;
use process_keeper::{Input, Keeper};
use rs_core::Rs;

/// Returns the endpoint of the label's instance, if RS counts it as up and its leader exited.
pub fn dead_instance(keeper: &Keeper, rs: &Rs, label: usize) -> Option<Endpoint>
    ensures dead { IfSome result (λ endpoint. IsDeadAt rs.now keeper.now.labels.items label endpoint) }
    ensures none { IsNone result → NoneDied rs.now keeper.now.labels.items label }
{
    if !keeper.accepts(label, Input::Reported(0)) {
        return None;
    }
    match endpoint_at(rs, label) {
        Some(endpoint) => Some(endpoint),
        None => None,
    }
}

/// Returns the endpoint of the label's instance, if RS counts it as up and its start is pending.
pub fn pending_instance(keeper: &Keeper, rs: &Rs, label: usize) -> Option<Endpoint>
    ensures pending { IfSome result (λ endpoint. AcceptsAt keeper.now.labels.items label (Failed 0) true) }
    ensures counted { IfSome result (λ endpoint. endpoint_in_force (state_at rs.now label) ≡ Some endpoint) }
    ensures none { IsNone result →
        AcceptsAt keeper.now.labels.items label (Failed 0) false ⊎ (endpoint_in_force (state_at rs.now label) ≡ None) }
{
    if !keeper.accepts(label, Input::Failed(0)) {
        return None;
    }
    match endpoint_at(rs, label) {
        Some(endpoint) => Some(endpoint),
        None => None,
    }
}
