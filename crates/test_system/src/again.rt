//! Outcomes made again: new lists, with copies of what was in them.

use driver_tables::Moves;
use ds_names::NoRoom;
use ds_system::{Replies, Rounds, SystemOutcome, SystemOutcomes};
use std::alloc::Global;

/// Returns the same outcomes, in new lists.
pub(crate) fn made_again(
    alloc: Global,
    outcomes: &SystemOutcomes,
) -> Result<SystemOutcomes, NoRoom> {
    let mut again = SystemOutcomes::new(alloc);
    for index in 0..outcomes.len() {
        if let Some(outcome) = outcomes.get(index) {
            again.push(outcome_again(alloc, outcome)?)?;
        }
    }
    Ok(again)
}

fn outcome_again(alloc: Global, outcome: &SystemOutcome) -> Result<SystemOutcome, NoRoom> {
    match outcome {
        SystemOutcome::Acted { actions, replies } => Ok(SystemOutcome::Acted {
            actions: actions.copy(alloc)?,
            replies: replies_again(alloc, replies)?,
        }),
        SystemOutcome::Moved { rounds, own, fault } => Ok(SystemOutcome::Moved {
            rounds: rounds_again(alloc, rounds)?,
            own: *own,
            fault: *fault,
        }),
        other => other.copy(alloc),
    }
}

fn replies_again(alloc: Global, replies: &Replies) -> Result<Replies, NoRoom> {
    let mut again = Replies::new(alloc);
    for index in 0..replies.len() {
        if let Some(reply) = replies.get(index) {
            again.push(reply.copy(alloc)?)?;
        }
    }
    Ok(again)
}

fn rounds_again(alloc: Global, rounds: &Rounds) -> Result<Rounds, NoRoom> {
    let mut again = Rounds::new(alloc);
    for index in 0..rounds.len() {
        if let Some(moves) = rounds.get(index) {
            again.push(moves_again(alloc, moves)?)?;
        }
    }
    Ok(again)
}

fn moves_again(alloc: Global, moves: &Moves) -> Result<Moves, NoRoom> {
    let mut again = Moves::new(alloc);
    for index in 0..moves.len() {
        if let Some(step) = moves.get(index) {
            again.push(*step)?;
        }
    }
    Ok(again)
}
