//! The help of `dsctl record`.

pub(crate) const RECORD_ABOUT: &str = "Run a store on commands, and write the trace of that run";

pub(crate) const RECORD_LONG_ABOUT: &str = "\
Runs one store on commands, and writes the trace of that run.

The commands are read from the file or from standard input, one a line. The
store is a new one, of incarnation 1; its positions begin at 0, and its journal
keeps 256 items, or as many as a first line `ring N` says. An entry of the trace
is a command and the store's reply; `dsctl verify --help` lists its lines. The
output is a legal trace, wherever the commands end.

Lines of commands:
  COMMAND          a line of a script to a store: publish, delete, sweep,
                   retrieve, nameof, subscribe, check, since, snapshot, page or
                   offer
  merge N          merge the N items, 0 to 256, on the lines after it
  + ITEM           one of these items, a change or a floor
  PASS COMMAND, PASS merge N
                   likewise, with the caller's PASS, 0 to 63; 0 by default
  ring N           on the first line only: how many items the journal keeps, 1
                   to 4096

A trace of format 1 has no floors, so its sweeps leave tombstones; its store has
room for 1024 keys and 64 subscriptions. A trace of format 2 has the same limits
with `--keys 1024`, and otherwise 4096 and 128.

A line that can't be read ends the run with status 1. What was written before
stays, and standard error has `badline LINE PLACE`, lines counted from 1 and
bytes from 0, and a sentence. No line of a trace is above 4096 bytes: a command
that would be, with `> PASS ` before it, is bad at its first byte too many.

Two commands:
  publish 0/2 new eth0 label 3.0 = 3/17
  7 retrieve eth0 label

The trace of their run:
  trace 2 1 0 256 128 4096
  > 0 publish 0/2 new eth0 label 3.0 = 3/17
  < taken
  > 7 retrieve eth0 label
  < found 3/17";

pub(crate) const FORMAT_ABOUT: &str = "1 or 2, the format of the trace; 2 by default";

pub(crate) const KEYS_ABOUT: &str = "1024 or 4096; 4096 by default, 1024 in format 1";
