//! RS and its store between threads.

ghost use denote.Param.Send.{IsSend, IsSync};
ghost use Rattle.rs_store.specs.contracts.pair.RsStore.{the_row as pair_row};

/// A law: RS and its store may go to another thread, and threads may share them.
#[tactic(auto, using(crate::proofs::CrossingLemmas::pair_send, crate::proofs::CrossingLemmas::pair_sync))]
pub fn pairs_cross_threads()
    ensures send { IsSend pair_row }
    ensures sync { IsSync pair_row }
{}
