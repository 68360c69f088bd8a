//! Laws of RS beside its store, and the processes of its services.

ghost use Rattle.node_supervisor.specs.Laws.{NodeLeadersStay, NodesAgree, NodesAreReachable, NodesAreSupervisors};

/// Laws of each list of calls on a node and its processes, with clients' commands among them: RS and the keepers go as a supervisor goes.
/// So that crate's laws hold: a process is forked only for an instance that RS counts, what RS counts runs or is to be forked, and a label
/// keeps its leader until that is reaped, while labels keep their numbers.
pub fn nodes_are_supervisors()
    ensures paths { NodesAreSupervisors }
    ensures reachable { NodesAreReachable }
    ensures agree { NodesAgree }
    ensures leaders { NodeLeadersStay }
{}
