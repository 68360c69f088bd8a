//! The laws of driver tables over every run of calls.

ghost use Rattle.driver_tables.specs.Laws.{ListsTell, AnswersOnce, DoneByItsDriver, NoneToOlder, NewestRises, BlockRequestsAreKept};

/// A law of every run of calls on a table that began empty, whatever was refused and wherever memory ran out. The
/// table's requests, sends and answers follow from the calls and their answers. Each id is answered at most once, and
/// Done only for a reply from the endpoint that the request was last sent to. Each Send and Start goes to the label's
/// endpoint now, of its greatest generation, which never falls. A request to a block driver is answered Done, is with
/// the driver that there is now, or waits for one.
pub fn runs_keep_requests()
    ensures told { ListsTell }
    ensures once { AnswersOnce }
    ensures done { DoneByItsDriver }
    ensures living { NoneToOlder }
    ensures rising { NewestRises }
    ensures kept { BlockRequestsAreKept }
{}
