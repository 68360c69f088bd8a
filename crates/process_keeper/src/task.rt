//! What is to be done next.

ghost use Rattle.std.specs.Prelude.{◌≡◌};
ghost use Rattle.process_keeper.specs.Order.{is_urgent, is_rest};

/// What a supervisor is to do about a label.
#[derive(Clone, Copy, Drop)]
pub enum Task {
    /// Nothing, until something happens or time passes.
    Rest,
    /// Scan for processes that an earlier run left of this label, and kill them.
    Clear,
    /// Fork the leader of the pending start with this generation.
    Fork(u64),
    /// Inform RS that the instance with this generation died.
    Report(u64),
    /// Send SIGTERM, and then SIGCONT, to the process group with this number.
    Ask(u64),
    /// Send SIGKILL to the process group with this number, and to all that a scan finds of its instance.
    Kill(u64),
    /// Scan for processes of the instance whose group has this number.
    Scan(u64),
    /// Reap the leader with this process number.
    Reap(u64),
}

impl Task {
    // Returns whether it is anything but a start.
    pub(crate) fn is_urgent(&self) -> bool
        ensures { result ≡ is_urgent self.now }
    {
        !matches!(self, Task::Rest | Task::Fork(_))
    }

    // Returns whether there is nothing to do.
    pub(crate) fn is_rest(&self) -> bool
        ensures { result ≡ is_rest self.now }
    {
        matches!(self, Task::Rest)
    }
}
