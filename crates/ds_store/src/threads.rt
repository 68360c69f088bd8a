//! Threads may share a store.

ghost use denote.Param.Send.{IsSend, IsSync};
ghost use Rattle.ds_store.specs.contracts.store.Store.{the_row as store_row};

/// A law: a store may be sent to another thread with all its subscriptions, and threads may share one.
#[tactic(auto, using(crate::proofs::CrossingLemmas::store_send, crate::proofs::CrossingLemmas::store_sync))]
pub fn stores_cross_threads()
    ensures send { IsSend store_row }
    ensures sync { IsSync store_row }
{}
