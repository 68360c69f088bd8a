//! Calls of a desk that never wait.

ghost use Rattle.std.specs.Prelude.{◌≡◌, ◌<◌, ◌^◌, IfOk, IfErr};
ghost use Rattle.desk.specs.Calls.{Calls, PostsReply, StaysAtDesk};
ghost use Rattle.desk.specs.Desk.{identity};
ghost use Rattle.desk.specs.Free.{MissesCall};
ghost use Rattle.desk.specs.Pass.{desk_of};

use crate::desk::{Answer, Desk};
use crate::notice::post_owed;
use crate::pass::Pass;
use desk_rule::{Machine, NoTurn, call_if_free};

impl<M: Machine> Desk<M> {
    /// Like `call`, but never waits: it tries for the turn `tries` times, at least once.
    ///
    /// Refuses as Worn if no place below 2^62 is left, and as Busy if another pass held or took the turn at each try. The history is
    /// then unchanged, the command is dropped, and the pass has seen as much as before, or more.
    pub fn call_if_free(
        &self,
        pass: &mut Pass<M>,
        command: M::Command,
        tries: u32,
    ) -> Result<Answer<M::Reply>, NoTurn>
    where
        M::Command: Drop,
        requires of_desk { desk_of pass.old ≡ identity self.now }
        ensures same { StaysAtDesk pass.old pass.new }
        ensures called { IfOk result (λ a. Calls M.stands M.steps pass.old pass.new command a.reply a.place) }
        ensures place { IfOk result (λ a. a.place < 2 ^ 62) }
        ensures posted { IfOk result (PostsReply M.owes pass.old pass.new) }
        ensures missed { IfErr result (λ stop. MissesCall M.stands M.steps M.owes stop pass.old pass.new) }
    {
        let shared = &self.table.shared;
        match call_if_free(shared, &mut pass.seat, command, tries) {
            Ok((place, reply)) => {
                let owed = M::owed(&reply);
                let raised = post_owed(shared, &mut pass.seat, &mut pass.raises, owed);
                Ok(Answer {
                    reply,
                    place,
                    owed,
                    raised,
                })
            }
            Err(stop) => Err(stop),
        }
    }
}
