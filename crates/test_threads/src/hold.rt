//! A gate that holds a worker until another one has had an answer.

use ds_live::Gate;
use std::sync::atomic::{AtomicBool, Ordering};
use std::thread;

// How often a worker that is held checks whether it may continue.
const MOST_LOOKS: u32 = 100_000_000;

/// A gate that holds a worker before its first turn until another one has had its first turn. If that takes too long, turns it away.
#[derive(Drop)]
pub(crate) struct Hold {
    held: u32,
    other: u32,
    answered: AtomicBool,
}

impl Hold {
    /// Returns the gate of two workers, before anybody has arrived.
    pub(crate) fn new(held: u32, other: u32) -> Hold {
        Hold {
            held,
            other,
            answered: AtomicBool::new(false),
        }
    }

    // Waits until the other worker has had an answer. Returns whether it has.
    fn wait(&self) -> bool {
        for _ in 0..MOST_LOOKS {
            if self.answered.load(Ordering::SeqCst) {
                return true;
            }
            thread::yield_now();
        }
        false
    }
}

impl Gate for Hold {
    ghost answers = { λ gate worker turn answer. Unit {0} };

    fn arrive(&self, worker: u32, turn: u32) -> bool {
        if worker == self.other && turn == 1 {
            self.answered.store(true, Ordering::SeqCst);
        }
        worker != self.held || turn > 0 || self.wait()
    }
}
