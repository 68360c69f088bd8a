//! What inputs change.

ghost use Rattle.std.specs.Prelude.{◌≡◌, true, false, None, Some};
ghost use Rattle.process_keeper.specs.Inputs.{after_input, after_scan, with_leader, with_deadline, forgotten, next_pause, paused_until};

use crate::input::Input;
use crate::instance::Instance;
use crate::lifecycle::{FIRST_PAUSE, Lifecycle};
use crate::scan::Scan;

const LONGEST_PAUSE: u64 = 10_000;

impl Lifecycle {
    // Applies an accepted input.
    pub(crate) fn apply(&mut self, input: Input)
        ensures { self.new ≡ after_input self.old input }
    {
        match input {
            Input::Started(generation) => {
                self.pending = Some(generation);
                self.retry_at = 0;
                self.pause = FIRST_PAUSE;
            }
            Input::Cancelled => self.pending = None,
            Input::Stopped(at) => self.stop(at),
            Input::Shortened(at) => self.instance = stopped(self.instance, at),
            Input::Begun(leader) => {
                self.instance = begun(self.pending, leader);
                self.pending = None;
                self.forget();
            }
            Input::Failed(now) => self.fail(now),
            Input::Exited => self.exit(),
            Input::Changed => self.is_scanned = false,
            Input::Asked => self.is_asked = true,
            Input::Killed => {
                self.is_killed = true;
                self.is_scanned = false;
            }
            Input::Scanned(found) => self.scan(found),
            Input::Reported(now) => {
                self.stop(now);
                self.is_asked = true;
            }
            Input::Reaped => {
                self.instance = None;
                self.forget();
            }
            Input::Cleared => {
                self.is_clean = true;
                self.is_scanned = false;
            }
        }
    }

    pub(crate) fn stop(&mut self, at: u64)
        ensures { self.new ≡ record self.old { instance = with_deadline self.old.instance at; is_scanned = false } }
    {
        self.instance = stopped(self.instance, at);
        self.is_scanned = false;
    }

    fn fail(&mut self, now: u64)
        ensures { self.new ≡ record self.old { retry_at = paused_until now self.old.pause; pause = next_pause self.old.pause } }
    {
        self.retry_at = match now.checked_add(self.pause) {
            Some(at) => at,
            None => u64::MAX,
        };
        self.pause = if self.pause < LONGEST_PAUSE / 2 {
            self.pause * 2
        } else {
            LONGEST_PAUSE
        };
    }

    fn exit(&mut self)
        ensures { self.new ≡ record self.old { has_exited = true; is_empty = false; is_scanned = false } }
    {
        self.has_exited = true;
        self.is_empty = false;
        self.is_scanned = false;
    }

    fn scan(&mut self, found: Scan)
        ensures { self.new ≡ after_scan self.old found }
    {
        self.is_scanned = true;
        self.is_empty = matches!(found, Scan::Nothing);
        if matches!(found, Scan::Living) {
            self.is_killed = false;
        }
    }

    // Forgets what was seen of an instance.
    fn forget(&mut self)
        ensures { self.new ≡ forgotten self.old }
    {
        self.has_exited = false;
        self.is_asked = false;
        self.is_killed = false;
        self.is_empty = false;
        self.is_scanned = false;
    }
}

fn stopped(instance: Option<Instance>, at: u64) -> Option<Instance>
    ensures { result ≡ with_deadline instance at }
{
    match instance {
        Some(it) => Some(Instance {
            generation: it.generation,
            leader: it.leader,
            deadline: Some(at),
        }),
        None => None,
    }
}

fn begun(pending: Option<u64>, leader: u64) -> Option<Instance>
    ensures { result ≡ with_leader pending leader }
{
    match pending {
        Some(generation) => Some(Instance {
            generation,
            leader,
            deadline: None,
        }),
        None => None,
    }
}
