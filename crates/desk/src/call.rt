//! The calls of a desk.

ghost use Rattle.std.specs.Prelude.{◌≡◌, ◌≤◌, ◌<◌, ◌+◌, ◌^◌, IfOk, OnOk, IfErr};
ghost use Rattle.desk.specs.Desk.{identity};
ghost use Rattle.desk.specs.Calls.{Calls, CarriesAll, FindsNoPlace, KnowsAsMuch, Learns, PostsReply, SameNotices, Sees};
ghost use Rattle.desk.specs.Calls.{StaysAtDesk, StaysUnnoticed, Takes, next_place};
ghost use Rattle.desk.specs.Pass.{desk_of, desk_of_note, notes_learnt, notes_made};

use crate::desk::{Answer, Desk, Taken};
use crate::fault::{DeskFault, LearnStop};
use crate::notice::{post_owed, tally};
use crate::pass::{Note, NoteOf, Pass};
use desk_rule::{Machine, call_in_turn, join_note, look, split_note, take};
use std::sync::Wait;

// The most notes that a pass makes, and the most that it learns.
const MOST_NOTES: u64 = 1 << 62;

impl<M: Machine> Desk<M> {
    /// Waits for the turn, steps the machine once, ends the turn, and then posts what the reply owes.
    ///
    /// Refuses as Worn if no place below 2^62 is left. The history is then unchanged, and the command is dropped. Only the
    /// machine takes memory.
    pub fn call<W: Wait>(
        &self,
        rt: &W,
        pass: &mut Pass<M>,
        command: M::Command,
    ) -> Result<Answer<M::Reply>, DeskFault>
    where
        M::Command: Drop,
        requires of_desk { desk_of pass.old ≡ identity self.now }
        ensures same { StaysAtDesk pass.old pass.new }
        ensures called { IfOk result (λ a. Calls M.stands M.steps pass.old pass.new command a.reply a.place) }
        ensures place { IfOk result (λ a. a.place < 2 ^ 62) }
        ensures posted { IfOk result (PostsReply M.owes pass.old pass.new) }
        ensures worn { IfErr result (λ fault. FindsNoPlace M.stands M.steps fault pass.old pass.new) }
    {
        let shared = &self.table.shared;
        let Some((place, reply)) = call_in_turn(rt, shared, &mut pass.seat, command) else {
            return Err(DeskFault::Worn);
        };
        let owed = M::owed(&reply);
        let raised = post_owed(shared, &mut pass.seat, &mut pass.raises, owed);
        Ok(Answer {
            reply,
            place,
            owed,
            raised,
        })
    }

    /// Takes every pending bit of a server, and then reads how far the history goes. Each bit is owed by a call whose place
    /// is below `floor`.
    ///
    /// A bit is pending if it was posted to the server and not taken yet, in the one order of all notices. Refuses a server
    /// from 16 on as BadServer. Takes no memory and never waits.
    pub fn take(&self, pass: &mut Pass<M>, server: u32) -> Result<Taken, DeskFault>
        requires { desk_of pass.old ≡ identity self.now }
        ensures same { StaysAtDesk pass.old pass.new }
        ensures taken { IfOk result (Takes M.stands M.steps M.owes pass.old pass.new server) }
        ensures refused { IfErr result (λ fault. (fault ≡ DeskFault.BadServer) × (16 ≤ server) × (pass.new ≡ pass.old)) }
    {
        if server >= 16 {
            return Err(DeskFault::BadServer);
        }
        let shared = &self.table.shared;
        let bits = take(shared, &mut pass.seat, server as usize);
        tally(&mut pass.takes, server, bits);
        let floor = look(shared, &mut pass.seat) / 2;
        Ok(Taken {
            bits: bits as u8,
            floor,
        })
    }

    /// Returns how far the history goes: the first place without a call. Takes no memory and never waits.
    pub fn front(&self, pass: &mut Pass<M>) -> u64
        requires { desk_of pass.old ≡ identity self.now }
        ensures same { StaysAtDesk pass.old pass.new × SameNotices pass.old pass.new }
        ensures sees { Sees M.stands M.steps pass.old pass.new }
        ensures front { result ≡ next_place pass.new }
    {
        look(&self.table.shared, &mut pass.seat) / 2
    }

    /// Returns a note of what the pass has seen of the history and of the notices, for another pass to learn. Refuses as
    /// Worn after 2^62 notes. Never waits.
    pub fn note(&self, pass: &mut Pass<M>) -> Result<Note<M>, DeskFault>
        requires { desk_of pass.old ≡ identity self.now }
        ensures told { IfOk result (λ n. (desk_of_note n ≡ identity self.now) × CarriesAll n pass.old) }
        ensures made { OnOk result ((notes_made pass.new ≡ notes_made pass.old + 1) × (notes_learnt pass.new ≡ notes_learnt pass.old)) }
        ensures same { KnowsAsMuch pass.old pass.new × SameNotices pass.old pass.new }
        ensures worn { IfErr result (λ fault. (fault ≡ DeskFault.Worn) × (notes_made pass.old ≡ 2 ^ 62) × (pass.new ≡ pass.old)) }
    {
        if pass.made >= MOST_NOTES {
            return Err(DeskFault::Worn);
        }
        pass.made += 1;
        Ok(NoteOf {
            seat: split_note(&self.table.shared, &mut pass.seat),
        })
    }

    /// Learns a note: from now on the pass has seen all that the note carries. The note's history was a prefix of the pass's,
    /// or the other way round. Refuses as Worn after 2^62 notes, and hands the note back. Never waits.
    pub fn learn(&self, pass: &mut Pass<M>, note: Note<M>) -> Result<(), LearnStop<Note<M>>>
        requires pass { desk_of pass.old ≡ identity self.now }
        requires note { desk_of_note note ≡ identity self.now }
        ensures same { StaysUnnoticed pass.old pass.new }
        ensures learnt { OnOk result (Learns M.stands M.steps pass.old pass.new note) }
        ensures worn { IfErr result (λ stop. (stop.fault ≡ DeskFault.Worn) × (notes_learnt pass.old ≡ 2 ^ 62) × (pass.new ≡ pass.old)) }
        ensures back { IfErr result (λ stop. stop.note ≡ note) }
    {
        if pass.learnt >= MOST_NOTES {
            return Err(LearnStop {
                fault: DeskFault::Worn,
                note,
            });
        }
        pass.learnt += 1;
        let NoteOf { seat } = note;
        let shared = &self.table.shared;
        join_note(shared, &mut pass.seat, seat);
        look(shared, &mut pass.seat);
        Ok(())
    }
}
