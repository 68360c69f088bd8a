//! Laws of the calls on a session whose keepers are open.

ghost use Rattle.c_keeper.specs.Laws.{KeptCallsAreMoves, KeptSessionsAgree};

/// Laws of each list of calls on a session whose keepers are open, with requests to the store among them: RS and the processes go as
/// `nodes_are_supervisors` of `node_supervisor` says. So a process is forked only for an instance that RS counts as up, and what RS counts
/// as up runs or is to be forked.
pub fn calls_are_moves()
    ensures moves { KeptCallsAreMoves }
    ensures agree { KeptSessionsAgree }
{}
