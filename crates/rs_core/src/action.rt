//! The actions of RS.

ghost use Rattle.std.specs.Prelude.{◌≡◌, ◌<◌, ◌≢◌, ◌++◌, ◌∷◌, [], length, slice_get, OnOk, IfErr, OnErr, IfOk, IsOk};
ghost use Rattle.std.specs.Option.{option_copied};
ghost use Rattle.ds_entry.specs.Change.{IsChange};
ghost use Rattle.rs_core.specs.Action.{IsActionInPlace, label_put, label_gone, start_actions, stop_actions};
ghost use Rattle.ds_names.specs.Name.{rs_name};

use ds_entry::{Body, Change, Floor, Value};
use ds_names::{Endpoint, Generation, Key, Kind, Name, NoRoom, Version};
use std::alloc::{AllocFailed, Global};
use std::marker::Model;

/// One action of RS.
#[derive(Drop)]
pub enum Action {
    /// Kill the process.
    Kill(Endpoint),
    /// Start the service under the endpoint.
    Start(Name, Endpoint),
    /// Ping the process: ask whether it is alive.
    Ping(Endpoint),
    /// Offer the change to the data store: a label, or a label's tombstone.
    Offer(Change),
    /// Have the data store end what a dead instance published, by raising this floor.
    Sweep(Floor),
}

impl Action {
    /// Returns a copy. Takes memory only for the offer of a text or a blob, which RS never makes.
    pub fn copy(&self, alloc: Global) -> Result<Action, NoRoom>
        ensures same { IfOk result (λ action. action ≡ self.now) }
        ensures in_place { IsActionInPlace self.now → IsOk result }
    {
        match self {
            Action::Kill(endpoint) => Ok(Action::Kill(*endpoint)),
            Action::Start(label, endpoint) => Ok(Action::Start(*label, *endpoint)),
            Action::Ping(endpoint) => Ok(Action::Ping(*endpoint)),
            Action::Offer(change) => Ok(Action::Offer(change.copy(alloc)?)),
            Action::Sweep(floor) => Ok(Action::Sweep(*floor)),
        }
    }
}

/// A list of actions.
#[derive(Drop)]
pub struct Actions {
    actions: Vec<Action>,
}

impl Model for Actions {
    ghost use Rattle.std.specs.Prelude.{List};
    ghost use Rattle.rs_core.specs.declared.action.Action.{Action};

    ghost Value = { List Action };

    ghost view = { λ a. a.actions.items };
}

impl Actions {
    /// Returns an empty list. Takes no memory.
    pub fn new(alloc: Global) -> Actions
        ensures { result ≡ [] }
    {
        Actions {
            actions: Vec::new(alloc),
        }
    }

    /// Appends an action. If memory runs out, the list is unchanged and the error hands the action back.
    pub fn push(&mut self, action: Action) -> Result<(), AllocFailed<Action>>
        ensures ok { OnOk result (self.new ≡ self.old ++ action ∷ []) }
        ensures err { OnErr result (self.new ≡ self.old) }
        ensures back { IfErr result (λ back. back.value ≡ action) }
    {
        self.actions.push(action)
    }

    /// Returns how many actions there are.
    pub fn len(&self) -> usize
        ensures { result ≡ length self.now }
    {
        self.actions.len()
    }

    /// Returns the action at an index from 0, or `None` past the end.
    pub fn get(&self, index: usize) -> Option<&Action>
        ensures { option_copied result ≡ slice_get self.now index }
    {
        self.actions.get(index)
    }

    /// Returns a copy, in the same order. Takes no memory if the list is empty.
    pub fn copy(&self, alloc: Global) -> Result<Actions, NoRoom>
        ensures same { IfOk result (λ actions. actions ≡ self.now) }
        ensures room { OnErr result (self.now ≢ []) }
    {
        let mut actions = Vec::new(alloc);
        for action in &self.actions {
            actions.push(action.copy(alloc)?)?;
        }
        Ok(Actions { actions })
    }
}

// Returns the change that publishes a label.
fn label_put(label: Name, endpoint: Endpoint) -> Change
    requires other { label ≢ rs_name }
    requires given { 0 < endpoint.generation }
    ensures value { result ≡ label_put label endpoint }
    ensures change { IsChange result }
{
    let key = Key {
        name: label,
        kind: Kind::Label,
    };
    let version = Version {
        epoch: endpoint.generation(),
        seq: 0,
    };
    Change::from_parts(key, Name::rs(), version, Body::Put(Value::Label(endpoint)))
}

// Returns the change that ends a label.
fn label_gone(label: Name, generation: Generation) -> Change
    requires other { label ≢ rs_name }
    requires given { 0 < generation }
    ensures value { result ≡ label_gone label generation }
    ensures change { IsChange result }
{
    let key = Key {
        name: label,
        kind: Kind::Label,
    };
    let version = Version {
        epoch: generation,
        seq: 1,
    };
    Change::from_parts(key, Name::rs(), version, Body::Gone)
}

// Appends the actions that start an instance.
pub(crate) fn add_start(
    actions: &mut Actions,
    label: Name,
    endpoint: Endpoint,
) -> Result<(), NoRoom>
    requires other { label ≢ rs_name }
    requires given { 0 < endpoint.generation }
    ensures { OnOk result (actions.new ≡ actions.old ++ start_actions label endpoint) }
{
    actions.push(Action::Start(label, endpoint))?;
    actions.push(Action::Offer(label_put(label, endpoint)))?;
    Ok(())
}

// Appends the actions that stop an instance.
pub(crate) fn add_stop(
    actions: &mut Actions,
    kill: bool,
    label: Name,
    endpoint: Endpoint,
) -> Result<(), NoRoom>
    requires other { label ≢ rs_name }
    requires given { 0 < endpoint.generation }
    ensures { OnOk result (actions.new ≡ actions.old ++ stop_actions kill label endpoint) }
{
    let generation = endpoint.generation();
    if kill {
        actions.push(Action::Kill(endpoint))?;
    }
    actions.push(Action::Offer(label_gone(label, generation)))?;
    let floor = Floor {
        owner: label,
        generation,
    };
    actions.push(Action::Sweep(floor))?;
    Ok(())
}
