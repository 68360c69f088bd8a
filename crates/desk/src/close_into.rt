//! Closing a desk into memory that was allocated before.

ghost use Rattle.std.specs.Prelude.{◌≡◌, ◌≤◌, length, IfOk, IfErr, OnOk};
ghost use Rattle.std.specs.List.{AllByRecursion};
ghost use Rattle.desk.specs.Desk.{first_call, identity, opened_with, pass_count};
ghost use Rattle.desk.specs.Closing.{AllAgree, AllLearnt, IsAccount, IsPassesFault, LeavesHistory};
ghost use Rattle.desk.specs.Pass.{desk_of};

use crate::account::AccountRoom;
use crate::close::{CloseStop, Closed, can_close};
use crate::desk::Desk;
use crate::passes::Passes;
use desk_rule::Machine;

impl<M: Machine> Desk<M> {
    /// Like `close`, into memory for the account that was allocated before. Takes no memory, so it never reports NoRoom.
    ///
    /// Refuses as PassesOut, then as Noted. A refusal hands the desk and the passes back, and drops the memory for the account.
    pub fn close_into(
        self,
        room: AccountRoom,
        passes: Passes<M>,
    ) -> Result<Closed<M>, CloseStop<Desk<M>, Passes<M>>>
        requires { AllByRecursion (λ p. desk_of p ≡ identity self) passes }
        ensures history { IfOk result (λ c. LeavesHistory M.stands M.steps M.owes (opened_with self) (first_call self) passes c) }
        ensures agree { OnOk result (AllAgree passes) }
        ensures account { IfOk result (λ c. IsAccount passes c.account) }
        ensures notes { IfOk result (λ _. (pass_count self ≤ length passes) × AllLearnt passes) }
        ensures refused { IfErr result (λ stop. IsPassesFault stop.fault (pass_count self) passes) }
        ensures back { IfErr result (λ stop. (stop.desk ≡ self) × (stop.passes ≡ passes)) }
    {
        match can_close(self.made, &passes.passes) {
            Ok(()) => Ok(self.close_all(room, passes)),
            Err(fault) => Err(CloseStop {
                fault,
                desk: self,
                passes,
            }),
        }
    }
}
