//! Doing what an event calls for, once no fault applies to it.

ghost use Rattle.std.specs.Prelude.{◌≡◌, ◌<◌, ◌≤◌, ◌+◌, ◌^◌, ◌∷◌, [], true, false, length, None, IfOk, OnOk, OnErr};
ghost use Rattle.rs_core.specs.Action.{start_actions, stop_actions};
ghost use Rattle.rs_core.specs.State.{state_at, service_at, is_up, up_count};
ghost use Rattle.rs_core.specs.Machine.{new_endpoint, task};
ghost use Rattle.rs_core.specs.Slots.{next_key};
ghost use Rattle.rs_core.specs.Doing.{after_start, after_stop, after_replacement, after_note, failing, forgetting, replacing};
ghost use Rattle.rs_core.specs.Judging.{lack_for, has_actions};
ghost use Rattle.rs_core.specs.Step.{IsDone};
ghost use Rattle.rs_core.specs.Kept.{IsAtRest};

use crate::action::{Action, Actions, add_start, add_stop};
use crate::deed::{Deed, Task};
use crate::rs::Rs;
use crate::state::{Pause, Running, State, endpoint_at, failed, failures_left};
use ds_names::NoRoom;

impl Rs {
    // Changes only the tick.
    pub(crate) fn idle(&mut self, tick: u64) -> Actions
        requires { tick ≤ 2 ^ 62 }
        ensures done { result ≡ [] }
        ensures after { self.new ≡ record self.old { tick = tick } }
    {
        self.tick = tick;
        Actions::new(self.alloc)
    }

    // Does the task.
    pub(crate) fn follow(&mut self, task: Task, tick: u64) -> Result<Actions, NoRoom>
        requires within { task.place < length self.old.states }
        requires tick { tick ≤ 2 ^ 62 }
        requires room { lack_for self.old task.deed ≡ None }
        ensures done { IfOk result (λ actions. IsDone self.old tick task actions self.new) }
        ensures room { OnErr result (has_actions task.deed ≡ true) }
        ensures unchanged { OnErr result (self.new ≡ self.old) }
    {
        let place = task.place;
        match self.state_at(place) {
            State::Up(running) => self.follow_up(place, tick, task.deed, running),
            State::Waiting(pause) => match task.deed {
                Deed::Resume => self.begin(place, tick, pause.failures),
                Deed::Forget => Ok(self.forget(place, tick, pause)),
                _ => Ok(self.leave(place, tick)),
            },
            State::Down | State::GaveUp => match task.deed {
                Deed::Begin => self.begin(place, tick, 0),
                _ => Ok(self.leave(place, tick)),
            },
        }
    }

    // Does the deed to a service that is up.
    fn follow_up(
        &mut self,
        place: usize,
        tick: u64,
        deed: Deed,
        running: Running,
    ) -> Result<Actions, NoRoom>
        requires within { place < length self.old.states }
        requires tick { tick ≤ 2 ^ 62 }
        requires room { lack_for self.old deed ≡ None }
        requires up { state_at self.old place ≡ State.Up running }
        requires failures { running.failures ≤ 1000 }
        ensures done { IfOk result (λ actions. IsDone self.old tick (task deed place) actions self.new) }
        ensures room { OnErr result (has_actions deed ≡ true) }
        ensures unchanged { OnErr result (self.new ≡ self.old) }
    {
        match deed {
            Deed::Replace => self.replace(place, tick, running),
            Deed::Lose(kill) => self.lose(place, tick, kill, running),
            Deed::Halt => self.end(place, tick, true, running, State::Down),
            Deed::Hear => Ok(self.hear(place, tick, running)),
            Deed::Ping => self.ping(place, tick, running),
            _ => Ok(self.leave(place, tick)),
        }
    }

    // Returns the slot that is taken next.
    fn next_slot(&self) -> u16
        requires { up_count self.now.states < self.now.settings.slots }
        ensures value { result ≡ self.now.slots.first + next_key self.now.slots }
        ensures limit { result ≤ 1023 }
    {
        self.slots.first() + self.next_key() as u16
    }

    // Returns the tick from which the first heartbeat period of an instance counts that starts now.
    fn first_beat(&self, place: usize, tick: u64) -> u64
        requires within { place < length self.now.states }
        requires tick { tick ≤ 2 ^ 62 }
        ensures { result ≡ tick + (service_at self.now place).startup }
    {
        tick + u64::from(self.service_at(place).startup)
    }

    // Returns the failures in a row that still count when the service's instance ends.
    fn forgetting(&self, place: usize, tick: u64, running: &Running) -> u32
        requires within { place < length self.now.states }
        ensures value { result ≡ forgetting self.now place tick running.now }
        ensures few { result ≤ running.now.failures }
    {
        failures_left(self.service_at(place).forget, tick, running)
    }

    // Starts the service in the next slot.
    fn begin(&mut self, place: usize, tick: u64, failures: u32) -> Result<Actions, NoRoom>
        requires within { place < length self.old.states }
        requires tick { tick ≤ 2 ^ 62 }
        requires next { self.old.next ≤ 2097151 }
        requires slot { up_count self.old.states < self.old.settings.slots }
        requires failures { failures ≤ 1000 }
        requires rest { is_up (state_at self.old place) ≡ false }
        ensures done { IfOk result (λ actions. actions ≡ start_actions (service_at self.old place).label (new_endpoint self.old)) }
        ensures after { OnOk result (self.new ≡ after_start self.old place tick failures) }
        ensures unchanged { OnErr result (self.new ≡ self.old) }
    {
        let label = self.service_at(place).label;
        let endpoint = endpoint_at(self.next, self.next_slot());
        let beat = self.first_beat(place, tick);
        let mut actions = Actions::new(self.alloc);
        add_start(&mut actions, label, endpoint)?;
        self.slots.take_next();
        self.states[place] = State::Up(Running {
            endpoint,
            since: tick,
            beat,
            ping: tick,
            failures,
        });
        self.next += 1;
        self.tick = tick;
        Ok(actions)
    }

    // Stops the service's instance, and leaves the service in the state `after`.
    fn end(
        &mut self,
        place: usize,
        tick: u64,
        kill: bool,
        running: Running,
        after: State,
    ) -> Result<Actions, NoRoom>
        requires within { place < length self.old.states }
        requires tick { tick ≤ 2 ^ 62 }
        requires up { state_at self.old place ≡ State.Up running }
        requires rest { IsAtRest after }
        ensures done { IfOk result (λ actions. actions ≡ stop_actions kill (service_at self.old place).label running.endpoint) }
        ensures after { OnOk result (self.new ≡ after_stop self.old place tick running after) }
        ensures unchanged { OnErr result (self.new ≡ self.old) }
    {
        let label = self.service_at(place).label;
        let mut actions = Actions::new(self.alloc);
        add_stop(&mut actions, kill, label, running.endpoint)?;
        let key = running.endpoint.slot() - self.slots.first();
        self.slots.free(key as usize);
        self.states[place] = after;
        self.tick = tick;
        Ok(actions)
    }

    // Stops the service's instance, and starts another in the same slot, since the slot freed last is taken next.
    fn replace(&mut self, place: usize, tick: u64, running: Running) -> Result<Actions, NoRoom>
        requires within { place < length self.old.states }
        requires tick { tick ≤ 2 ^ 62 }
        requires next { self.old.next ≤ 2097151 }
        requires up { state_at self.old place ≡ State.Up running }
        ensures done { IfOk result (λ actions. actions ≡ replacing self.old place running) }
        ensures after { OnOk result (self.new ≡ after_replacement self.old place tick running) }
        ensures unchanged { OnErr result (self.new ≡ self.old) }
    {
        let label = self.service_at(place).label;
        let endpoint = endpoint_at(self.next, running.endpoint.slot());
        let beat = self.first_beat(place, tick);
        let failures = self.forgetting(place, tick, &running);
        let mut actions = Actions::new(self.alloc);
        add_stop(&mut actions, true, label, running.endpoint)?;
        add_start(&mut actions, label, endpoint)?;
        self.states[place] = State::Up(Running {
            endpoint,
            since: tick,
            beat,
            ping: tick,
            failures,
        });
        self.next += 1;
        self.tick = tick;
        Ok(actions)
    }

    // Handles a failure of the service's instance.
    fn lose(
        &mut self,
        place: usize,
        tick: u64,
        kill: bool,
        running: Running,
    ) -> Result<Actions, NoRoom>
        requires within { place < length self.old.states }
        requires tick { tick ≤ 2 ^ 62 }
        requires up { state_at self.old place ≡ State.Up running }
        requires failures { running.failures ≤ 1000 }
        ensures done { IfOk result (λ actions. actions ≡ stop_actions kill (service_at self.old place).label running.endpoint) }
        ensures after { OnOk result (self.new ≡ after_stop self.old place tick running (failing self.old place tick running)) }
        ensures unchanged { OnErr result (self.new ≡ self.old) }
    {
        let failures = self.forgetting(place, tick, &running);
        let after = failed(self.service_at(place).limit, tick, failures + 1);
        self.end(place, tick, kill, running, after)
    }

    // Keeps the running instance, with these ticks of its heartbeat and its ping.
    fn keep(&mut self, place: usize, tick: u64, running: Running, beat: u64, ping: u64)
        requires within { place < length self.old.states }
        requires tick { tick ≤ 2 ^ 62 }
        requires up { state_at self.old place ≡ State.Up running }
        ensures { self.new ≡ after_note self.old place tick (State.Up (record running { beat = beat; ping = ping })) }
    {
        self.states[place] = State::Up(Running {
            endpoint: running.endpoint,
            since: running.since,
            beat,
            ping,
            failures: running.failures,
        });
        self.tick = tick;
    }

    // Notes a heartbeat of the service's instance.
    fn hear(&mut self, place: usize, tick: u64, running: Running) -> Actions
        requires within { place < length self.old.states }
        requires tick { tick ≤ 2 ^ 62 }
        requires up { state_at self.old place ≡ State.Up running }
        ensures done { result ≡ [] }
        ensures after { self.new ≡ after_note self.old place tick (State.Up (record running { beat = tick })) }
    {
        let ping = running.ping;
        self.keep(place, tick, running, tick, ping);
        Actions::new(self.alloc)
    }

    // Pings the service's instance.
    fn ping(&mut self, place: usize, tick: u64, running: Running) -> Result<Actions, NoRoom>
        requires within { place < length self.old.states }
        requires tick { tick ≤ 2 ^ 62 }
        requires up { state_at self.old place ≡ State.Up running }
        ensures done { IfOk result (λ actions. actions ≡ Action.Ping running.endpoint ∷ []) }
        ensures after { OnOk result (self.new ≡ after_note self.old place tick (State.Up (record running { ping = tick }))) }
        ensures unchanged { OnErr result (self.new ≡ self.old) }
    {
        let mut actions = Actions::new(self.alloc);
        actions.push(Action::Ping(running.endpoint))?;
        let beat = running.beat;
        self.keep(place, tick, running, beat, tick);
        Ok(actions)
    }

    // Ends the service's wait.
    fn forget(&mut self, place: usize, tick: u64, pause: Pause) -> Actions
        requires within { place < length self.old.states }
        requires tick { tick ≤ 2 ^ 62 }
        requires waiting { state_at self.old place ≡ State.Waiting pause }
        ensures done { result ≡ [] }
        ensures after { self.new ≡ after_note self.old place tick State.Down }
    {
        let _failures = pause.failures;
        self.states[place] = State::Down;
        self.tick = tick;
        Actions::new(self.alloc)
    }

    // Leaves the service unchanged.
    fn leave(&mut self, place: usize, tick: u64) -> Actions
        requires { tick ≤ 2 ^ 62 }
        ensures done { result ≡ [] }
        ensures after { self.new ≡ after_note self.old place tick (state_at self.old place) }
    {
        self.tick = tick;
        Actions::new(self.alloc)
    }
}
