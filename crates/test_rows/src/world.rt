//! Events that a world runs at once; a script runs them one by one.

use crate::telling::tell;
use ds_entry::Items;
use ds_line::read_item;
use ds_machine::{Command, Reply, Scope};
use ds_replica::{Event, EventFault, Head, Holder, Outcome, Seed, Side};
use ds_world::{Events, Outcomes, World};
use std::alloc::Global;

// The item that another holder has for store A.
const LINE: &[u8] = b"a u32 eth0 1.0 = 1\n";

/// Runs four events at once, the third of which is refused: a change is merged into store A, and everything that A then
/// holds into store B. Then writes a line. `None`: out of memory, or another outcome.
pub(crate) fn tell_rows(text: &mut Vec<u8>, alloc: Global) -> Option<()> {
    let mut world = World::new(alloc, seed(1), seed(2)).ok()?;
    happen_in(alloc, &mut world)?;
    tell(text, &[b"four events of a world at once\n"])
}

fn seed(incarnation: u64) -> Seed {
    Seed {
        incarnation,
        first: 0,
        ring: 256,
    }
}

fn happen_in(alloc: Global, world: &mut World) -> Option<()> {
    let mut events = Events::new(alloc);
    add_events(alloc, &mut events)?;
    let outcomes = world.run(events.copy(alloc).ok()?).ok()?;
    let again = made_again(alloc, &outcomes.copy(alloc).ok()?)?;
    let is_held = world.store(Side::B).held().len() == 1;
    (is_held && are_wanted(&again) && has_cursor(world)).then_some(())
}

// Returns a new list with copies of the outcomes.
fn made_again(alloc: Global, outcomes: &Outcomes) -> Option<Outcomes> {
    let mut again = Outcomes::new(alloc);
    for index in 0..outcomes.len() {
        let outcome = outcomes.get(index)?.copy(alloc).ok()?;
        again.push(outcome).ok()?;
    }
    Some(again)
}

// Returns whether message 0 is a snapshot with the cursor after one change.
fn has_cursor(world: &World) -> bool {
    let Some(message) = world.message(0) else {
        return false;
    };
    match message.head() {
        Some(Head::Snapped { cursor }) => cursor.position == 1,
        _ => false,
    }
}

fn add_events(alloc: Global, events: &mut Events) -> Option<()> {
    add(events, ask(merge(alloc)?))?;
    add(events, ask(Command::Snapshot { scope: Scope::All }))?;
    add(events, deliver(9))?;
    add(events, deliver(0))
}

fn add(events: &mut Events, event: Event) -> Option<()> {
    events.push(event).ok()
}

// Returns the event that sends a command to store A.
fn ask(command: Command) -> Event {
    Event::Ask {
        side: Side::A,
        command,
    }
}

// Returns a Merge of one change from another holder.
fn merge(alloc: Global) -> Option<Command> {
    let (item, _) = read_item(alloc, LINE).ok()?;
    let mut items = Items::new(alloc);
    items.push(item).ok()?;
    Some(Command::Merge { items })
}

// Returns the event that delivers a message to store B.
fn deliver(message: usize) -> Event {
    Event::Deliver {
        message,
        holder: Holder::Store(Side::B),
        count: None,
    }
}

// Returns whether each event has its outcome.
fn are_wanted(outcomes: &Outcomes) -> bool {
    for event in 0..4 {
        match outcomes.get(event) {
            Some(outcome) if is_wanted(event, outcome) => {}
            _ => return false,
        }
    }
    outcomes.len() == 4
}

fn is_wanted(event: usize, outcome: &Outcome) -> bool {
    match outcome {
        Outcome::Replied(Reply::Merged { taken, .. }) => event == 0 && *taken == 1,
        Outcome::Made { message } => event == 1 && *message == 0,
        Outcome::Refused(EventFault::NoMessage) => event == 2,
        Outcome::Merged { count, .. } => event == 3 && count.taken == 1,
        _ => false,
    }
}
