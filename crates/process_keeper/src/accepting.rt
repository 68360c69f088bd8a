//! Which inputs a label accepts.

ghost use Rattle.std.specs.Prelude.{◌≡◌};
ghost use Rattle.process_keeper.specs.Inputs.{is_accepted, is_running, is_stopping, is_due_by};

use crate::input::Input;
use crate::lifecycle::Lifecycle;

impl Lifecycle {
    pub(crate) fn accepts(&self, input: Input) -> bool
        ensures { result ≡ is_accepted self.now input }
    {
        match input {
            Input::Started(_) => self.pending.is_none() && !self.is_up(),
            Input::Cancelled | Input::Changed | Input::Scanned(_) => true,
            Input::Stopped(_) => self.is_up(),
            Input::Shortened(at) => self.is_due_by(at),
            Input::Begun(_) => self.pending.is_some() && self.instance.is_none() && self.is_clean,
            Input::Failed(_) => self.pending.is_some(),
            Input::Exited => self.instance.is_some(),
            Input::Asked | Input::Killed => self.is_stopping(),
            Input::Reported(_) => self.is_up() && self.has_exited,
            Input::Reaped => {
                self.is_stopping() && self.has_exited && self.is_scanned && self.is_empty
            }
            Input::Cleared => !self.is_clean,
        }
    }

    pub(crate) fn is_up(&self) -> bool
        ensures { result ≡ is_running self.now.instance }
    {
        match self.instance {
            Some(instance) => instance.deadline.is_none(),
            None => false,
        }
    }

    fn is_stopping(&self) -> bool
        ensures { result ≡ is_stopping self.now.instance }
    {
        match self.instance {
            Some(instance) => instance.deadline.is_some(),
            None => false,
        }
    }

    // Returns whether the instance has a deadline at this time or later.
    fn is_due_by(&self, at: u64) -> bool
        ensures { result ≡ is_due_by at self.now.instance }
    {
        match self.instance {
            Some(instance) => match instance.deadline {
                Some(deadline) => at <= deadline,
                None => false,
            },
            None => false,
        }
    }
}
