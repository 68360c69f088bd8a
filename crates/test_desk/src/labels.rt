//! The labels that two threads published, in the machine of the closed desk.

use crate::commands::label_of;
use crate::followed::Followed;
use crate::line::Sizes;
use crate::new_store::FIRST;
use crate::overwrite::overwrite_by_crew;
use std::alloc::Global;
use std::sync::Wait;
use std::thread::Threads;

/// The result of many changes by each of two threads.
#[derive(Clone, Copy)]
pub(crate) struct Labels {
    /// The number of items that took effect.
    pub changes: u64,
    /// The generation of the endpoint under the first thread's label.
    pub first: u32,
    /// The generation of the endpoint under the second thread's label.
    pub second: u32,
}

/// Lets two threads change one label each, `calls` times, and then reads the machine of the closed desk. Returns `None` if memory runs
/// out, or if a label is missing.
pub(crate) fn publish_labels<M, R>(rt: &R, alloc: Global, calls: u32) -> Option<Labels>
where
    M: Followed + Send + Drop,
    M::Command: Drop + Send,
    M::Reply: Drop + Send,
    R: Threads + Wait + Sync,
{
    let mut crew = overwrite_by_crew::<M, R>(rt, alloc, Sizes { threads: 2, calls })?;
    labels_in(&mut crew.machine)
}

fn labels_in<M: Followed>(machine: &mut M) -> Option<Labels> {
    Some(Labels {
        changes: machine.position().wrapping_sub(FIRST),
        first: machine.generation_of(&label_of(1))?,
        second: machine.generation_of(&label_of(2))?,
    })
}
