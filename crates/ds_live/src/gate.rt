//! Gates, at which workers arrive before each of their turns.

ghost use Rattle.std.specs.Prelude.{ℕ, Bool};

/// A gate that may hold a worker, or turn it away. Threads share it.
pub trait Gate {
    // The answers that the gate may give to a worker before a turn.
    ghost answers: { Self → ℕ → ℕ → Bool → Type 0 };

    /// Lets worker `worker` through before its turn `turn`, from 0, or after its last one. Returns false to end the worker.
    fn arrive(&self, worker: u32, turn: u32) -> bool
        ensures { answers self.now worker turn result };
}

/// A gate that is open to all.
#[derive(Clone, Copy)]
pub struct OpenGate;

impl Gate for OpenGate {
    ghost use Rattle.std.specs.Prelude.{◌≡◌, true};

    ghost answers = { λ gate worker turn answer. answer ≡ true };

    fn arrive(&self, _worker: u32, _turn: u32) -> bool {
        true
    }
}
