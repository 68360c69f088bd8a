//! Requests.

ghost use Rattle.c_values.specs.Asked.{request_text};
ghost use Rattle.c_store.specs.Called.{RestsForNone, CalledWith, Called};

use crate::session::Session;
use c_values::{Answer, Request, read_request, text_of};
use ds_names::NoRoom;
use script_answers::Wording;
use std::alloc::Global;

impl Session {
    /// Carries out a request, whose text is in `texts`, by one step of the store's machine, and writes the answer. If the request isn't a
    /// command, or memory runs out for its text, the answer says so, and the store is unchanged.
    pub fn call(&mut self, alloc: Global, request: &Request, texts: &[u8], answer: &mut Answer)
        ensures { Called self.old request.now (request_text request.now texts.now) answer.new self.new }
    {
        match text_of(texts, request) {
            Some(text) => self.call_with(alloc, request, text, answer),
            None => self.decline(answer),
        }
    }

    // Carries out a request with this text. The three most frequent commands have fast ways.
    fn call_with(&mut self, alloc: Global, request: &Request, text: &[u8], answer: &mut Answer)
        ensures { CalledWith self.old request.now text.now answer.new self.new }
    {
        match request.command {
            0 => self.fast_publish(alloc, request, text, answer),
            3 => self.fast_retrieve(alloc, request, answer),
            4 => self.fast_name_of(request, answer),
            _ => self.ask(alloc, request, text, answer),
        }
    }

    // Carries out the command of a request with this text.
    #[inline(never)]
    pub(crate) fn ask(&mut self, alloc: Global, request: &Request, text: &[u8], answer: &mut Answer)
        ensures { CalledWith self.old request.now text.now answer.new self.new }
    {
        match read_request(alloc, request, text) {
            Ok(Some(command)) => self.answer(Wording::AsMerge, command, answer),
            Ok(None) => self.decline(answer),
            Err(NoRoom) => self.refuse(answer),
        }
    }

    /// Answers a request that isn't a command. The store is unchanged.
    pub(crate) fn decline(&mut self, answer: &mut Answer)
        ensures { RestsForNone self.old answer.new self.new }
    {
        self.rest(Answer::no_request(), answer);
    }
}
