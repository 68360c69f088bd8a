//! The gate of a run of threads: it counts turns, and has workers pause.

use ds_live::Gate;
use std::sync::atomic::{AtomicU64, Ordering};

/// The longest pause before a turn, in steps of a loop.
const LONGEST: u64 = 0xffff;

/// A gate that is open to all. Threads share it.
#[derive(Drop)]
pub(crate) struct Watch {
    seed: Option<u32>,
    turns: AtomicU64,
}

impl Watch {
    /// Returns a gate that has workers pause if there is a seed.
    pub(crate) fn new(seed: Option<u32>) -> Watch {
        Watch {
            seed,
            turns: AtomicU64::new(0),
        }
    }

    /// Returns how many turns began so far.
    pub(crate) fn turns(&self) -> u64 {
        self.turns.load(Ordering::SeqCst)
    }
}

// Pauses, for a time that is drawn from the seed, the worker and the turn.
fn pause(seed: u32, worker: u32, turn: u32) {
    let drawn = mixed(mixed(seed as u64 + 1, worker), turn);
    for _step in 0..drawn & LONGEST {
        std::hint::spin_loop();
    }
}

// Mixes a number into another, by the steps of xorshift.
fn mixed(state: u64, number: u32) -> u64 {
    let mut mixed = state.wrapping_mul(6364136223846793005) ^ (number as u64 + 1);
    mixed ^= mixed >> 33;
    mixed = mixed.wrapping_mul(0xff51afd7ed558ccd);
    mixed ^ (mixed >> 33)
}

impl Gate for Watch {
    ghost use Rattle.std.specs.Prelude.{◌≡◌, true};

    ghost answers = { λ gate worker turn answer. answer ≡ true };

    fn arrive(&self, worker: u32, turn: u32) -> bool {
        let _turns = self.turns.fetch_add(1, Ordering::SeqCst);
        if let Some(seed) = self.seed {
            pause(seed, worker, turn);
        }
        true
    }
}
