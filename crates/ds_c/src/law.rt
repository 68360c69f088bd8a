//! A law of handles.

ghost use Rattle.ds_c.specs.Crossing.{HandlesCross};

/// A law: the handle of a store, with its RS and keepers, may go to another thread. So may that of a map, a table, a desk and a seat.
pub fn handles_cross()
    ensures { HandlesCross }
{}
