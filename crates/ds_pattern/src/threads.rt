//! Threads may share a filter.

ghost use denote.Param.Send.{IsSend, IsSync};
ghost use Rattle.ds_pattern.specs.contracts.filter.Filter.{the_row as filter_row};

/// A law: a filter may be sent to another thread, and threads may share one.
#[tactic(auto, using(crate::proofs::CrossingLemmas::filter_send, crate::proofs::CrossingLemmas::filter_sync))]
pub fn filters_cross_threads()
    ensures send { IsSend filter_row }
    ensures sync { IsSync filter_row }
{}
