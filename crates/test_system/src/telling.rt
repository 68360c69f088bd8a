//! The outcomes of events, in the words of scripts where these exist.

use crate::words::{tell, tell_numbers};
use driver_tables::{Move, Moves, TableFault};
use ds_entry::Items;
use ds_held::Limits;
use ds_line::append_item;
use ds_names::NoRoom;
use ds_replica::Outcome;
use ds_system::{Replies, Rounds, SystemFault, SystemOutcome};
use ds_world::World;
use rs_core::{Action, Actions};
use script_answers::{
    Wording, append_action, append_action_count, append_message, append_move, append_move_count,
    append_outcome, append_reply, append_rs_fault, append_table_fault,
};
use std::alloc::Global;

/// Appends the outcome of an event. A message is written as the store's reply.
pub(crate) fn tell_outcome(
    text: &mut Vec<u8>,
    alloc: Global,
    world: &World,
    outcome: &SystemOutcome,
) -> Result<(), NoRoom> {
    match outcome {
        SystemOutcome::Acted { actions, replies } => tell_acted(text, actions, replies),
        SystemOutcome::Replied(reply) => {
            append_reply(text, Wording::AsOffer, reply, Limits::larger())
        }
        SystemOutcome::Moved { rounds, own, fault } => tell_moved(text, rounds, own, fault),
        SystemOutcome::Happened(outcome) => tell_happened(text, alloc, world, outcome),
        SystemOutcome::Refused(fault) => tell_fault(text, *fault),
    }
}

// Appends each of RS's actions, the store's reply after each offer and sweep, and how many actions there are.
fn tell_acted(text: &mut Vec<u8>, actions: &Actions, replies: &Replies) -> Result<(), NoRoom> {
    let mut told = 0usize;
    for index in 0..actions.len() {
        let Some(action) = actions.get(index) else {
            continue;
        };
        append_action(text, action)?;
        if let Action::Offer(_) | Action::Sweep(_) = action {
            if let Some(reply) = replies.get(told) {
                append_reply(text, Wording::AsMerge, reply, Limits::larger())?;
                told += 1;
            }
        }
    }
    append_action_count(text, actions.len())
}

// Appends each round, the event's own move after them, the fault that ended it, and how many rounds there are.
fn tell_moved(
    text: &mut Vec<u8>,
    rounds: &Rounds,
    own: &Option<Move>,
    fault: &Option<TableFault>,
) -> Result<(), NoRoom> {
    for index in 0..rounds.len() {
        if let Some(round) = rounds.get(index) {
            tell_round(text, round)?;
        }
    }
    if let Some(step) = own {
        append_move(text, *step)?;
    }
    if let Some(fault) = fault {
        append_table_fault(text, *fault)?;
    }
    tell_numbers(text, &[("rounds ", rounds.len() as u64)])
}

// Appends the moves of a round, and how many there are.
fn tell_round(text: &mut Vec<u8>, round: &Moves) -> Result<(), NoRoom> {
    for index in 0..round.len() {
        if let Some(step) = round.get(index) {
            append_move(text, *step)?;
        }
    }
    append_move_count(text, round.len())
}

fn tell_happened(
    text: &mut Vec<u8>,
    alloc: Global,
    world: &World,
    outcome: &Outcome,
) -> Result<(), NoRoom> {
    if let Outcome::Made { message: number } = outcome {
        if let Some(message) = world.message(*number) {
            return append_message(alloc, text, Wording::AsMerge, message, Limits::larger());
        }
    }
    append_outcome(text, Wording::AsMerge, outcome, Limits::larger())
}

/// Appends the puts that a map holds, and how many there are.
pub(crate) fn tell_entries(
    text: &mut Vec<u8>,
    alloc: Global,
    world: &World,
    number: usize,
) -> Result<(), NoRoom> {
    let Some(map) = world.map(number) else {
        return tell(text, b"nomap");
    };
    let entries = map.entries(alloc)?;
    tell_items(text, &entries)
}

fn tell_items(text: &mut Vec<u8>, items: &Items) -> Result<(), NoRoom> {
    for item in items.as_slice() {
        append_item(text, item)?;
    }
    tell_numbers(text, &[("shown ", items.len() as u64)])
}

// Appends why an event is refused.
fn tell_fault(text: &mut Vec<u8>, fault: SystemFault) -> Result<(), NoRoom> {
    let line: &[u8] = match fault {
        SystemFault::Service(fault) => return append_rs_fault(text, fault),
        SystemFault::UnknownLabel => b"refused unknownlabel",
        SystemFault::NotDeclared => b"refused notdeclared",
        SystemFault::NotUp => b"refused notup",
        SystemFault::BadKind => b"refused badkind",
        SystemFault::SeqSpent => b"refused seqspent",
        SystemFault::NoMessage => b"refused nomessage",
        SystemFault::NotAllowed => b"refused notallowed",
        SystemFault::NoRoom => b"refused noroom",
    };
    tell(text, line)
}
