//! Requests, and the pieces of an answer.

ghost use Rattle.std.specs.Prelude.{◌≡◌, drop};
ghost use Rattle.c_values.specs.Pieces.{GivesPieces};
ghost use Rattle.c_rs.specs.Requests.{CallsRs, is_for_rs_alone, is_rs_request, answer_pieces};

use crate::session::{RsSession, let_go};
use c_values::{Answer, Given, Request};
use ds_machine::Refusal;
use std::alloc::Global;

impl RsSession {
    /// Carries out a request, whose text is in `texts`, as a session does. Once RS is open, a Publish, a Delete or a Sweep whose caller
    /// is RS is refused as NotAllowed, before any other cause.
    pub fn call(&mut self, alloc: Global, request: &Request, texts: &[u8], answer: &mut Answer)
        ensures { CallsRs texts.now self.old request.now answer.new self.new }
    {
        if self.is_barred(request) {
            return self.refuse(Refusal::NotAllowed, answer);
        }
        let_go(&mut self.told);
        self.session.call(alloc, request, texts, answer);
    }

    // Returns whether RS is open and the request is in its name.
    fn is_barred(&self, request: &Request) -> bool
        ensures { result ≡ is_for_rs_alone self.now.session.node.services request.now }
    {
        self.session.node.services().is_some() && is_rs_request(request)
    }

    /// Writes the text of the last answer to a buffer, from the piece at an index on: as many whole pieces as fit. An answer of RS has
    /// none.
    pub fn give(&self, alloc: Global, first: usize, room: &mut [u8]) -> Given
        ensures { GivesPieces (drop first (answer_pieces self.now)) room.old result room.new }
    {
        match &self.told {
            None => self.session.give(alloc, first, room),
            Some(_) => Given::nothing(),
        }
    }
}

// Returns whether the request is a Publish, a Delete or a Sweep whose caller is RS.
fn is_rs_request(request: &Request) -> bool
    ensures { result ≡ is_rs_request request.now }
{
    request.command <= 2 && request.generation == 0 && request.slot == 2
}
