//! The help of `dsctl verify` and `dsctl upgrade`.

pub(crate) const VERIFY_ABOUT: &str = "Judge whether a recorded trace of a store is legal";

pub(crate) const VERIFY_LONG_ABOUT: &str = "\
Judges whether a recorded trace of a data store is legal.

A trace is a recording of one store: how it was opened, its commands, and its
replies. It is read from the file or from standard input. Its first line opens a
store, which runs the trace's commands, and each line of the replies must be
this store's. So nothing is accepted for its form alone.

If each entry is a step of the store from the state after the entry before it,
`legal N` is printed, N being the number of entries. Otherwise the first line
that no legal trace has in its place is printed, counted from 1; if the trace
ends within an entry, that is the missing line:
  illegal L  line L must be a line of a reply, and isn't one that the store can
             give
  badline L  line L must be a header, a `>` or a `+` line, and isn't one, or is
             above 4096 bytes

Standard error then has one line, which says what was expected there and what
was found.

Lines of a trace:
  trace 2 INCARNATION FIRST RING SUBS KEYS
                     the first line: the store's incarnation, its first
                     position, how many items its journal keeps, 1 to 4096, and
                     its limits, `64 1024` or `128 4096`
  > PASS COMMAND     an entry begins: the pass of its caller, 0 to 63, and a
                     line of a script to a store: publish, delete, sweep,
                     retrieve, nameof, subscribe, check, since, snapshot, page
                     or offer
  > PASS merge N     likewise, for a merge of N items, 0 to 256
  + ITEM             one of these items, a change or a floor
  < LINE             a line of the reply, as a script prints it; for a `merge`,
                     as for `deliver`

PASS names the caller, for recordings of threads; no reply depends on it. When
memory runs out, `< refused noroom` is a legal reply to any command, and changes
nothing; `< stopped D noroom` is one to a `merge` whose first D items are taken,
D being below N.

`trace 1 INCARNATION FIRST RING` begins an older trace: its limits are 64 and
1024, it has no floors, and a sweep leaves tombstones in it. `dsctl upgrade`
writes it in format 2. `dsctl record` writes the trace of a run of its own.

A legal trace of two entries:
  trace 2 1 0 256 128 4096
  > 0 publish 0/2 new eth0 label 3.0 = 3/17
  < taken
  > 7 retrieve eth0 label
  < found 3/17";

pub(crate) const UPGRADE_ABOUT: &str = "Write a trace of format 1 in format 2";

pub(crate) const UPGRADE_LONG_ABOUT: &str = "\
Writes a trace of format 1 in format 2.

The trace is read from the file or from standard input. It is judged line by
line, as by `dsctl verify`, and each entry is written once its reply was found
legal. The header gets the limits of format 1, `64 1024`. Entries are unchanged,
except sweeps: in format 1 they leave tombstones, in format 2 they raise floors.
So a sweep becomes merges of its tombstones, 256 in each and the rest in the
last one, with the notices that each of them owes. A sweep that leaves none is
left out, and so is one that is refused. The output is legal: its store took the
same changes, drew the same stamps and showed the same.

`dsctl verify --help` lists the lines of a trace. A trace that can't be written
in format 2 ends there, with status 1: what was written before stays, and
standard error has one of these lines, and a sentence:
  illegal L  line L must be a line of a reply, as for `dsctl verify`
  badline L  line L must be another line, as for `dsctl verify`
  already 2  the trace is one of format 2; nothing is written

A trace of format 1, with a sweep:
  trace 1 1 0 256
  > 0 offer mtu u32 eth0 3.0 = 1500
  < taken
  > 0 sweep 0/2 eth0 3
  < swept 1

The same in format 2:
  trace 2 1 0 256 64 1024
  > 0 offer mtu u32 eth0 3.0 = 1500
  < taken
  > 0 merge 1
  + mtu u32 eth0 3.4294967295 -
  < merged 1 1 0";
