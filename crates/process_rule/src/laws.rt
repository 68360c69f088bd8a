//! The laws, each on a function without a body.

ghost use Rattle.process_rule.specs.Laws.{OneInstanceAtATime, BeginsAlone, ForgetsNone, GenerationsAreWritten, SignalsAreAimed};
ghost use Rattle.process_rule.specs.Laws.{GroupsMayBeKilled, GraceIsKept, DeathsAreTrue, FailuresChangeNothing, OnlyStartsWait};
ghost use Rattle.process_rule.specs.Progress.{DeadStays, EmptyStays, KilledStays, NothingStays, GraceLasts, PendingStays, StartsGoOn};
ghost use Rattle.process_rule.specs.Witness.{NumbersComeAgain};
ghost use Rattle.process_rule.specs.Careless.{EarlyReapersMiss, CarelessStartsDouble, CarelessGenerationsRepeat};
ghost use Rattle.process_rule.specs.Careless.{CarelessReportsLie, CarelessKillsAreEarly};

/// Laws of every reachable host: numbers are given again, processes exit, the supervisor is killed at any instant.
pub fn processes_are_kept()
    ensures one { OneInstanceAtATime }
    ensures alone { BeginsAlone }
    ensures left { ForgetsNone }
    ensures written { GenerationsAreWritten }
    ensures aimed { SignalsAreAimed }
    ensures group { GroupsMayBeKilled }
    ensures grace { GraceIsKept }
    ensures deaths { DeathsAreTrue }
    ensures failures { FailuresChangeNothing }
    ensures waits { OnlyStartsWait }
{}

/// Laws of progress: scans stay true, grace periods last, and no instance or start stays for ever.
pub fn nothing_stays()
    ensures dead { DeadStays }
    ensures empty { EmptyStays }
    ensures killed { KilledStays }
    ensures stays { NothingStays }
    ensures grace { GraceLasts }
    ensures pending { PendingStays }
    ensures starts { StartsGoOn }
{}

/// A law: a worked run, in which a process number is given again.
pub fn numbers_come_again()
    ensures { NumbersComeAgain }
{}

/// Laws: without a guard of the rule, one of its laws is false.
pub fn guards_are_needed()
    ensures reaping { EarlyReapersMiss }
    ensures starts { CarelessStartsDouble }
    ensures generations { CarelessGenerationsRepeat }
    ensures reports { CarelessReportsLie }
    ensures kills { CarelessKillsAreEarly }
{}
