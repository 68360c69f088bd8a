//! Fast ways for the most frequent requests: Publish, Retrieve and NameOf.
//!
//! Each has the contract of `ask`, for the requests of one command. A Publish is read by itself. A Retrieve and a NameOf build no
//! command, and borrow what the store finds. docs/design/fast-ways.md says what that saves.

ghost use Rattle.std.specs.Prelude.{◌≡◌, ℕ, List};
ghost use Rattle.ds_machine.specs.declared.command.Command.TheVariants.{Retrieve, NameOf};
ghost use Rattle.c_store.specs.Called.{CalledWith, Rests, Tells};
ghost use Rattle.c_store.specs.Kept.{copy_reply};
ghost use Rattle.c_values.specs.Answer.{answer_of};
ghost use Rattle.script_answers.specs.declared.wording.Wording.TheVariants.{AsMerge};
ghost use Rattle.c_store.specs.declared.last.Last.TheVariants.{Reply as Replied};

use crate::last::{Last, overwrite};
use crate::session::Session;
use c_values::{Answer, Request, caller_of, key_of, named, read_publication};
use ds_entry::Value;
use ds_machine::{Command, Refusal, Reply};
use ds_names::{Endpoint, Key, NoRoom};
use script_answers::Wording;
use std::alloc::Global;

impl Session {
    /// Answers a Publish.
    #[inline(never)]
    pub(crate) fn fast_publish(
        &mut self,
        alloc: Global,
        request: &Request,
        text: &[u8],
        answer: &mut Answer,
    )
        requires { request.now.command ≡ 0 }
        ensures { CalledWith self.old request.now text.now answer.new self.new }
    {
        match read_publication(alloc, request, text) {
            Ok(Some(asked)) => self.answer(Wording::AsMerge, asked.command(), answer),
            Ok(None) => self.decline(answer),
            Err(NoRoom) => self.refuse(answer),
        }
    }

    /// Answers a Retrieve.
    #[inline(never)]
    pub(crate) fn fast_retrieve(&mut self, alloc: Global, request: &Request, answer: &mut Answer)
        requires { request.now.command ≡ 3 }
        ensures { (text : List ℕ) → CalledWith self.old request.now text answer.new self.new }
    {
        let Some(key) = key_of(request) else {
            return self.decline(answer);
        };
        self.fast_find(alloc, &key, answer);
    }

    /// Answers the Retrieve of a key. Writes a number without a copy, and copies any other value first.
    #[inline(always)]
    pub fn fast_find(&mut self, alloc: Global, key: &Key, answer: &mut Answer)
        ensures { Tells self.old AsMerge (Retrieve key.now) answer.new self.new }
    {
        let store = self.node.store();
        let _stood = store.cursor();
        match store.fast_retrieve(key) {
            Some(Value::U32(number)) => {
                let found = Reply::Found(Value::U32(*number));
                self.tell(Wording::AsMerge, found, answer);
            }
            Some(value) => {
                let copied = value.copy(alloc);
                self.tell_copy(copied, answer);
            }
            None => self.tell(Wording::AsMerge, Reply::Refused(Refusal::NotFound), answer),
        }
    }

    // Answers with the copy of a value, or out of memory. Not inlined, because a number needs none of its locals.
    #[inline(never)]
    fn tell_copy(&mut self, copied: Result<Value, NoRoom>, answer: &mut Answer)
        ensures { Rests self.old (answer_of (copy_reply copied)) (Replied (copy_reply copied) AsMerge) answer.new self.new }
    {
        match copied {
            Ok(value) => self.tell(Wording::AsMerge, Reply::Found(value), answer),
            Err(NoRoom) => self.tell(Wording::AsMerge, Reply::Refused(Refusal::NoRoom), answer),
        }
    }

    /// Answers a NameOf. Inlined, because it needs few locals.
    #[inline(always)]
    pub(crate) fn fast_name_of(&mut self, request: &Request, answer: &mut Answer)
        requires { request.now.command ≡ 4 }
        ensures { (text : List ℕ) → CalledWith self.old request.now text answer.new self.new }
    {
        let Some(endpoint) = caller_of(request) else {
            return self.decline(answer);
        };
        self.fast_name(endpoint, answer);
    }

    /// Answers the NameOf of an endpoint. Copies the name of a label once, to where it is kept. RS goes the general way.
    #[inline(always)]
    pub fn fast_name(&mut self, endpoint: Endpoint, answer: &mut Answer)
        ensures { Tells self.old AsMerge (NameOf endpoint) answer.new self.new }
    {
        if endpoint.is_rs() {
            return self.name(endpoint, answer);
        }
        self.let_go();
        let store = self.node.store();
        let _stood = store.cursor();
        match store.fast_name_of(endpoint) {
            Some(name) => {
                overwrite(
                    &mut self.last,
                    Last::Reply {
                        reply: Reply::Named(*name),
                        wording: Wording::AsMerge,
                    },
                );
                *answer = named();
            }
            None => self.tell(Wording::AsMerge, Reply::Refused(Refusal::NotFound), answer),
        }
    }

    // Answers the NameOf of any endpoint. Not inlined, because only RS's needs a command.
    #[inline(never)]
    fn name(&mut self, endpoint: Endpoint, answer: &mut Answer)
        ensures { Tells self.old AsMerge (NameOf endpoint) answer.new self.new }
    {
        self.answer(Wording::AsMerge, Command::NameOf { endpoint }, answer);
    }
}
