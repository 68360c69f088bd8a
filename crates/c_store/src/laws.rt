//! The laws of driver tables from C, over definitions only.

ghost use Rattle.c_store.specs.TableRuns.{TurnsAreRuns, AnsweredOnce, RequestsAreKept, GoesToNoOlderInstance, NoneGoesToOlderInstance};

/// A law of every list of calls on a table. They are a run of the table over exactly these assignments, follows, submissions and replies,
/// in order, each as its own clause says of the table before it. The run's moves are those that each call leaves, and all laws of driver
/// tables over runs hold. From a new table on, each id is answered at most once. An accepted request to a block driver is answered Done, is
/// with the driver that there is now, or waits for one.
pub fn table_calls_are_runs()
    ensures runs { TurnsAreRuns }
    ensures once { AnsweredOnce }
    ensures kept { RequestsAreKept }
{}

/// A law of every follow and submission. Each Send and Start goes to no older instance than the map has of the label, and to none that the
/// map says is gone. From a new table on, what is sent is an accepted request.
pub fn table_calls_reach_no_older()
    ensures each { GoesToNoOlderInstance }
    ensures run { NoneGoesToOlderInstance }
{}
