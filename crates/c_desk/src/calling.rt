//! The calls at a seat.

ghost use Rattle.std.specs.Prelude.{◌≡◌, drop};
ghost use Rattle.c_values.specs.Asked.{request_text};
ghost use Rattle.c_values.specs.Pieces.{GivesPieces};
ghost use Rattle.c_desk.specs.Calls.{AsksIfTurnIsFree, DeclinesAtSeat, RefusesForRoom, SeatAnswers, SeatAnswersText};
ghost use Rattle.c_desk.specs.Calls.{TakesNotices, pieces_at};

use crate::seat::Seat;
use c_values::{Answer, Given, Request, answer_of, give, no_room, read_request, text_of};
use desk::{NoTurn, Taken};
use ds_machine::Command;
use ds_names::NoRoom;
use std::alloc::Global;

// How often a call tries for the turn.
const TRIES: u32 = 64;

/// The result of a call.
#[derive(Clone, Copy, Drop, PartialEq, Eq)]
pub enum Asked {
    /// The request is answered.
    Done,
    /// At the last try another seat held the turn or took it first. Nothing was called.
    Busy,
    /// No place below 2^62 is left. Nothing was called.
    Worn,
}

impl Seat {
    /// Carries out a request, whose text is in `texts`, if the turn is free. Writes the answer, and the place of the call in the history.
    ///
    /// A request that isn't a command, or whose command takes more memory than there is, is answered without a call.
    pub fn call(
        &mut self,
        alloc: Global,
        request: &Request,
        texts: &[u8],
        answer: &mut Answer,
        place: &mut u64,
    ) -> Asked
        ensures desk { self.new.desk ≡ self.old.desk }
        ensures called { SeatAnswers self.old request.now (request_text request.now texts.now) answer.old place.old
            answer.new place.new result self.new }
    {
        match text_of(texts, request) {
            Some(text) => self.call_with(alloc, request, text, answer, place),
            None => self.decline(answer),
        }
    }

    // Carries out a request with this text.
    fn call_with(
        &mut self,
        alloc: Global,
        request: &Request,
        text: &[u8],
        answer: &mut Answer,
        place: &mut u64,
    ) -> Asked
        ensures desk { self.new.desk ≡ self.old.desk }
        ensures called { SeatAnswersText self.old request.now text.now answer.old place.old answer.new place.new result self.new }
    {
        match read_request(alloc, request, text) {
            Ok(Some(command)) => self.try_command(command, answer, place),
            Ok(None) => self.decline(answer),
            Err(NoRoom) => self.refuse(answer),
        }
    }

    // Sends a command if the turn is free, and keeps the reply.
    fn try_command(&mut self, command: Command, answer: &mut Answer, place: &mut u64) -> Asked
        ensures desk { self.new.desk ≡ self.old.desk }
        ensures asked { AsksIfTurnIsFree self.old command answer.old place.old answer.new place.new result self.new }
    {
        match self.desk.call_if_free(&mut self.pass, command, TRIES) {
            Ok(told) => {
                *answer = answer_of(&told.reply);
                *place = told.place;
                self.last = Some(told.reply);
                Asked::Done
            }
            Err(NoTurn::Busy) => Asked::Busy,
            Err(NoTurn::Worn) => Asked::Worn,
        }
    }

    // Answers that the request isn't a command.
    fn decline(&mut self, answer: &mut Answer) -> Asked
        ensures desk { self.new.desk ≡ self.old.desk }
        ensures told { DeclinesAtSeat self.old answer.new result self.new }
    {
        *answer = Answer::no_request();
        self.last = None;
        Asked::Done
    }

    // Answers that memory ran out.
    fn refuse(&mut self, answer: &mut Answer) -> Asked
        ensures desk { self.new.desk ≡ self.old.desk }
        ensures told { RefusesForRoom self.old answer.new result self.new }
    {
        *answer = no_room();
        self.last = None;
        Asked::Done
    }

    /// Takes every pending notice of a server, and reads how far the history goes. Returns `None` for a server from 16 on. Never waits.
    pub fn take(&mut self, server: u32) -> Option<Taken>
        ensures desk { self.new.desk ≡ self.old.desk }
        ensures taken { TakesNotices self.old server result self.new }
    {
        match self.desk.take(&mut self.pass, server) {
            Ok(taken) => Some(taken),
            Err(_) => None,
        }
    }

    /// Copies the text of the last reply to a buffer, from the piece at index `first` on: as many whole pieces as fit.
    pub fn give(&self, alloc: Global, first: usize, room: &mut [u8]) -> Given
        ensures { GivesPieces (drop first (pieces_at self.now.last)) room.old result room.new }
    {
        match &self.last {
            None => Given::nothing(),
            Some(reply) => give(alloc, reply, first, room),
        }
    }
}
