//! A gate that turns workers away.

use ds_live::Gate;

/// A gate that turns away every worker from a number on, before a turn or after the last one.
#[derive(Clone, Copy)]
pub(crate) struct Shut {
    /// The first worker that is turned away.
    pub from: u32,
    /// The turn before which a worker is turned away.
    pub turn: u32,
}

impl Gate for Shut {
    ghost answers = { λ gate worker turn answer. Unit {0} };

    fn arrive(&self, worker: u32, turn: u32) -> bool {
        worker < self.from || turn != self.turn
    }
}
