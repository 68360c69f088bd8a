//! A law of passes over time.

ghost use Rattle.desk_store.specs.Laws.{SeesMore};

use desk::Pass;
use ds_store::Store;

/// A law: no call, take, look, note or learnt note makes a pass forget. The history that it has seen afterwards begins with the one
/// that it had seen before. That history is its turns', and each of its entries has a place of the desk.
pub fn passes_see_more(pass: &Pass<Box<Store>>)
    ensures { SeesMore pass.now }
{}
