//! Sessions. Each answer is written to the caller's variable.

ghost use Rattle.std.specs.Prelude.{◌≡◌, ◌≤◌, None, drop, false, length, IfOk, IfErr, OnOk};
ghost use Rattle.ds_feed.specs.Kept.{IsRing};
ghost use Rattle.ds_held.specs.Limits.{larger};
ghost use Rattle.ds_machine.specs.State.{opening};
ghost use Rattle.ds_names.specs.Limits.{last_place};
ghost use Rattle.ds_content.specs.Stands.{ContentStands};
ghost use Rattle.ds_store.specs.Opening.{IsOpenRefusal};
ghost use Rattle.c_values.specs.Answer.{answer_of, told_shown};
ghost use Rattle.c_values.specs.Pieces.{GivesPieces};
ghost use Rattle.c_store.specs.Kept.{holds_memory};
ghost use Rattle.c_store.specs.Called.{Tells, Rests, RestsForRoom, ShowsIfRoom, pieces_in};
ghost use Rattle.c_store.specs.declared.last.Last.TheVariants.{Nothing, Reply as Replied, Shown};

use crate::last::{Last, held_shown, overwrite};
use c_values::{Answer, Given, answer_of, no_room};
use ds_entry::Items;
use ds_machine::{Command, Refusal, Reply};
use ds_names::NoRoom;
use rs_store::RsStore;
use script_answers::Wording;
use std::alloc::Global;

/// A store, RS once it has begun, and the last answer.
#[derive(Drop)]
pub struct Session {
    /// RS and its store.
    pub node: RsStore,
    pub(crate) last: Last,
}

impl Session {
    /// Opens a store with at most 128 subscriptions and 4096 keys. Refuses as `Store::open` does.
    pub fn open(alloc: Global, incarnation: u64, first: u64, ring: u32) -> Result<Session, Refusal>
        ensures opened { IfOk result (λ session. ContentStands session.node.store (opening incarnation first ring larger)) }
        ensures fits { OnOk result (IsRing ring × (first ≤ last_place)) }
        ensures none { IfOk result (λ session. session.node.services ≡ None) }
        ensures silent { IfOk result (λ session. session.last ≡ Nothing) }
        ensures refused { IfErr result (λ refusal. IsOpenRefusal refusal first ring) }
    {
        let node = RsStore::open(alloc, incarnation, first, ring)?;
        Ok(Session {
            node,
            last: Last::Nothing,
        })
    }

    /// Returns the last answer.
    pub(crate) fn last(&self) -> &Last
        ensures { result.now ≡ self.now.last }
    {
        &self.last
    }

    /// Carries out a command, writes the answer, and keeps the reply with the wording that a script has for it.
    #[inline(always)]
    pub(crate) fn answer(&mut self, wording: Wording, command: Command, answer: &mut Answer)
        ensures { Tells self.old wording command answer.new self.new }
    {
        let store = self.node.store_mut();
        let _stood = store.cursor();
        let reply = store.apply(command);
        self.tell_reply(wording, reply, answer);
    }

    // Writes the answer of a reply, and keeps the reply. A change, the most frequent one, is written by itself.
    #[inline(always)]
    fn tell_reply(&mut self, wording: Wording, reply: Reply, answer: &mut Answer)
        ensures { Rests self.old (answer_of reply) (Replied reply wording) answer.new self.new }
    {
        match reply {
            Reply::Changed { owed } => self.tell(wording, Reply::Changed { owed }, answer),
            reply => self.tell_any(wording, reply, answer),
        }
    }

    // The same for any reply. Not inlined, because a change needs none of its locals.
    #[inline(never)]
    fn tell_any(&mut self, wording: Wording, reply: Reply, answer: &mut Answer)
        ensures { Rests self.old (answer_of reply) (Replied reply wording) answer.new self.new }
    {
        self.tell(wording, reply, answer);
    }

    /// Writes the answer of a reply, and keeps the reply. The store is unchanged.
    #[inline(always)]
    pub fn tell(&mut self, wording: Wording, reply: Reply, answer: &mut Answer)
        ensures { Rests self.old (answer_of reply) (Replied reply wording) answer.new self.new }
    {
        *answer = answer_of(&reply);
        self.let_go();
        overwrite(&mut self.last, Last::Reply { reply, wording });
    }

    // Drops the last answer if it holds allocated memory. The store is unchanged.
    #[inline(always)]
    pub(crate) fn let_go(&mut self)
        ensures node { self.new.node ≡ self.old.node }
        ensures let_go { holds_memory self.new.last ≡ false }
    {
        if self.last.holds_memory() {
            self.drop_last();
        }
    }

    // Drops the last answer. Not inlined, because most answers hold no memory.
    #[inline(never)]
    fn drop_last(&mut self)
        ensures node { self.new.node ≡ self.old.node }
        ensures dropped { self.new.last ≡ Nothing }
    {
        self.last = Last::Nothing;
    }

    /// Writes an answer without a text. The store is unchanged.
    pub fn rest(&mut self, told: Answer, answer: &mut Answer)
        ensures { Rests self.old told Nothing answer.new self.new }
    {
        *answer = told;
        self.last = Last::Nothing;
    }

    /// Answers that memory ran out. The store is unchanged.
    pub fn refuse(&mut self, answer: &mut Answer)
        ensures { RestsForRoom self.old answer.new self.new }
    {
        *answer = no_room();
        self.last = Last::Reply {
            reply: Reply::Refused(Refusal::NoRoom),
            wording: Wording::AsMerge,
        };
    }

    /// Shows everything that the store holds, or only the puts. It takes memory if anything is held. The store is unchanged.
    pub(crate) fn show(&mut self, alloc: Global, all: bool, answer: &mut Answer)
        ensures { ShowsIfRoom self.old all answer.new self.new }
    {
        match held_shown(alloc, self.node.store().held(), all) {
            Ok(items) => self.keep(items, answer),
            Err(NoRoom) => self.refuse(answer),
        }
    }

    // Keeps items that are shown, and writes the answer.
    fn keep(&mut self, items: Items, answer: &mut Answer)
        ensures { Rests self.old (told_shown (length items)) (Shown items) answer.new self.new }
    {
        *answer = Answer::shown(items.len());
        self.last = Last::Shown(items);
    }

    /// Copies the text of the last answer from the piece at index `first` on. Copies as many whole pieces as fit in the buffer. Until the
    /// next request, a later call can copy the rest.
    pub fn give(&self, alloc: Global, first: usize, room: &mut [u8]) -> Given
        ensures { GivesPieces (drop first (pieces_in self.now.last)) room.old result room.new }
    {
        self.last.give(alloc, first, room)
    }
}
