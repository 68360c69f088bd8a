//! Another service, which checks a reader's subscription as its own.

use ds_machine::{Command, Refusal, Reply};
use ds_reader::Others;
use ds_store::Store;

/// Checks the subscription for one item on each turn.
#[derive(Drop)]
pub(crate) struct Rival {
    /// The subscription's number.
    pub sub: u32,
    /// Whether memory ran out for one of its checks.
    pub is_out_of_memory: bool,
}

impl Others for Rival {
    fn ask(&mut self, store: &mut Store) {
        let reply = store.apply(Command::Check {
            sub: self.sub,
            max: 1,
        });
        self.is_out_of_memory |= matches!(reply, Reply::Refused(Refusal::NoRoom));
    }
}
