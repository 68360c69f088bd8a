//! Stores as followed machines.

use crate::commands::{Asked, driver_of, follow};
use crate::followed::Followed;
use crate::new_store::store_at;
use ds_entry::Value;
use ds_machine::{Command, Reply};
use ds_store::Store;
use std::alloc::Global;
use test_kit::Failure;

impl Followed for Box<Store> {
    fn begin_at(alloc: Global, position: u64) -> Option<Box<Store>> {
        store_at(alloc, position)
    }

    fn follow(alloc: Global, sub: u32) -> Option<Command> {
        follow(alloc, sub)
    }

    fn start(label: &[u8], generation: u32, slot: u16) -> Option<Command> {
        let driver = driver_of(label, generation, slot)?;
        Some(driver.ask(Asked::Start))
    }

    fn stamp_in(reply: &Reply) -> Option<u64> {
        match reply {
            Reply::Subscribed { stamp, .. } => Some(*stamp),
            _ => None,
        }
    }

    fn generation_of(&mut self, label: &[u8]) -> Option<u32> {
        let driver = driver_of(label, 0, 0)?;
        let reply = self.apply(driver.ask(Asked::Retrieve));
        found_in(&reply)
    }

    fn position(&self) -> u64 {
        self.cursor().position
    }

    fn tell_reply<R: Print>(rt: &R, reply: &Reply) -> Result<(), Failure> {
        match reply {
            Reply::Changed { .. } => print!(rt; "changed")?,
            Reply::Subscribed { stamp, .. } => print!(rt; "subscribed {stamp}")?,
            Reply::Refused(refusal) => print!(rt; "refused: {refusal}")?,
            _ => print!(rt; "answered")?,
        }
        Ok(())
    }
}

// Returns the generation in the reply of a label's Retrieve.
fn found_in(reply: &Reply) -> Option<u32> {
    match reply {
        Reply::Found(Value::Label(endpoint)) => Some(endpoint.generation().number()),
        _ => None,
    }
}
