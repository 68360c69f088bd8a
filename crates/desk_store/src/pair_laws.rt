//! A law of passes over time.

ghost use Rattle.desk_store.specs.Laws.{PairSeesMore};

use desk::Pass;
use rs_store::RsStore;

/// A law: no event, command, take, look, note or learnt note makes a pass forget. The store's history that it has seen afterwards begins
/// with the one that it had seen before. That history is its turns', and each call has a place of the desk.
pub fn pair_passes_see_more(pass: &Pass<Box<RsStore>>)
    ensures { PairSeesMore pass.now }
{}
