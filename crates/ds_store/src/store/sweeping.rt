//! Sweeps, which end what a dead owner left.

ghost use Rattle.std.specs.Prelude.{◌≡◌, IfNone};
ghost use Rattle.ds_held.specs.Kept.{IsFloorPlace};
ghost use Rattle.ds_machine.specs.Asking.{sweep_cause};
ghost use Rattle.ds_machine.specs.Machine.{Answers, sweeping};
ghost use Rattle.ds_machine.specs.Parts.{floors_in};
ghost use Rattle.ds_machine.specs.State.{State};
ghost use Rattle.ds_store.specs.Last.{IsLast};
ghost use Rattle.ds_store.specs.Standing.{machine_floor_standing};
ghost use Rattle.ds_content.specs.Stands.{ContentStands};
ghost use Rattle.ds_content.specs.Standing.{floor_standing_in};
ghost use Rattle.ds_machine.specs.Standing.{IsFloorFree};
ghost use Rattle.ds_store.specs.Steps.{ContentSteps};

use crate::answer::sweep_answer;
use crate::floor::cause_of_sweep;
use crate::standing::FloorStanding;
use crate::store::Store;
use ds_content::Content;
use ds_entry::Floor;
use ds_machine::{Cause, Command, Refusal, Reply};
use ds_names::{Endpoint, NoRoom};

impl Store {
    // Returns what a floor meets, given its owner's place.
    pub(super) fn floor_standing(&self, place: Result<usize, usize>, floor: &Floor) -> FloorStanding
        requires { IsFloorPlace (floors_in self.now.held) floor.now.owner place }
        ensures { machine_floor_standing floor.now.owner result ≡ floor_standing_in self.now floor.now }
    {
        let content: &Content = &self.content;
        FloorStanding {
            held: content.floor_at(place),
            count: content.floor_count(),
            position: content.cursor().position,
        }
    }

    // Returns the first cause against a Sweep, given the owner's place.
    fn cause_of_sweep(
        &self,
        place: Result<usize, usize>,
        caller: Endpoint,
        floor: &Floor,
    ) -> Option<Cause>
        requires { IsFloorPlace (floors_in self.now.held) floor.now.owner place }
        ensures first { (s : State) → ContentStands self.now s → result ≡ sweep_cause s caller floor.now }
        ensures free { IfNone result (IsFloorFree (floor_standing_in self.now floor.now) floor.now) }
    {
        let standing = self.floor_standing(place, floor);
        cause_of_sweep(&standing, caller, floor)
    }

    // Answers a Sweep: raises an owner's floor, which is owed to every subscription.
    pub(super) fn sweep(&mut self, caller: Endpoint, floor: Floor) -> Reply
        ensures step { ContentSteps self.old (λ s t. Answers s (sweeping s caller floor) result t) self.new }
        ensures last { (s : State) → ContentStands self.old s → IsLast s (Command.Sweep caller floor.owner floor.generation) result }
    {
        let place = self.content.floor_place(&floor.owner);
        if let Some(cause) = self.cause_of_sweep(place, caller, &floor) {
            return sweep_answer(cause);
        }
        let owed = self.content.owed_by_floor();
        match self.content.raise_at(place, floor, owed) {
            Ok(count) => Reply::Swept {
                count,
                owed: owed.number(),
            },
            Err(NoRoom) => Reply::Refused(Refusal::NoRoom),
        }
    }
}
