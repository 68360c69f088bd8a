//! How labels follow RS, beside its store.

ghost use Rattle.std.specs.Prelude.{◌≡◌, IfSome, IsNone};
ghost use Rattle.node_supervisor.specs.Telling.{FollowsNode, IsDeadIn, IsPendingIn, NoneIsPending, NoneIsDead};

use crate::processes::Processes;
use ds_names::Endpoint;
use rs_store::RsStore;
use supervisor::{dead_instance, follow, pending_instance};

impl Processes {
    // Has each label follow RS. Before RS has begun nothing changes.
    pub(crate) fn follow(&mut self, node: &RsStore, deadline: u64)
        ensures labels { FollowsNode node.now.services deadline self.old.keeper.labels.items self.new.keeper.labels.items }
        ensures next { self.new.keeper.next ≡ self.old.keeper.next }
        ensures file { self.new.keeper.file ≡ self.old.keeper.file }
    {
        match node.services() {
            Some(rs) => follow(&mut self.keeper, rs, deadline),
            None => (),
        }
    }

    // Returns the endpoint of the label's instance, if RS counts it as up and its leader exited.
    pub(crate) fn dead(&self, node: &RsStore, label: usize) -> Option<Endpoint>
        ensures dead { IfSome result (λ endpoint. IsDeadIn node.now.services self.now.keeper.labels.items label endpoint) }
        ensures none { IsNone result → NoneIsDead node.now.services self.now.keeper.labels.items label }
    {
        match node.services() {
            Some(rs) => dead_instance(&self.keeper, rs, label),
            None => None,
        }
    }

    // Returns the endpoint of the label's instance, if RS counts it as up and its start is pending.
    pub(crate) fn pending(&self, node: &RsStore, label: usize) -> Option<Endpoint>
        ensures pending { IfSome result (λ endpoint. IsPendingIn node.now.services self.now.keeper.labels.items label endpoint) }
        ensures none { IsNone result → NoneIsPending node.now.services self.now.keeper.labels.items label }
    {
        match node.services() {
            Some(rs) => pending_instance(&self.keeper, rs, label),
            None => None,
        }
    }
}
