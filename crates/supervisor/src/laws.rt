//! Laws of supervisors.

ghost use Rattle.supervisor.specs.Laws.{DeathsAreFinal, LeadersStay, NamedLeadersStay, OneIsCounted, SupervisorsAgree, VouchedAreHeard};

/// Laws of each reachable supervisor: a label runs the instance that RS counts as up, or is to run it, and no other. While it is up, each
/// process of the label that a scan finds belongs to it. After the report of a death, RS refuses each later heartbeat of that instance.
pub fn supervisors_agree()
    ensures agree { SupervisorsAgree }
    ensures one { OneIsCounted }
    ensures deaths { DeathsAreFinal }
    ensures vouched { VouchedAreHeard }
{}

/// Laws: a label keeps the leader that was forked for it until that is reaped, and a service does by its name, across other settings, too.
/// So each child is waited for.
pub fn leaders_stay()
    ensures numbered { LeadersStay }
    ensures named { NamedLeadersStay }
{}
