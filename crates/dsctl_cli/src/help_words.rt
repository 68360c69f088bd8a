//! The help of `dsctl`: its refusals, its options and `dsctl settings`.

pub(crate) const AFTER_HELP: &str = "\
Example session (lines after `>` are typed, the others are printed):
  > publish 0/2 new eth0 label 3.0 = 3/17
  taken
  > publish 3/17 new mtu u32 3.0 = 1500
  taken
  > offer eth0 label rs 2.0 = 2/9
  stale
  > show
  eth0 label rs 3.0 = 3/17
  mtu u32 eth0 3.0 = 1500
  shown 2

Words after `refused`, in the order in which they are judged:
  messagesfull    there are 65536 messages: no check, since, snapshot or page
                  is answered any more
  badsub          SUB is above 127
  nomessage       there is no message K: answered checks, sinces, snapshots and
                  pages are counted from 0
  mapsfull        there are 64 maps already
  nomap           there is no map J: `map` makes them, and counts from 0
  oldincarnation  INCARNATION isn't above all earlier ones, 1 and 2 at the start
  toomany         MAX is 0, or above 256: ask for 256, and again; or COUNT is
                  above the number of items
  toolong         PATTERN is above 128 bytes
  badpattern      PATTERN isn't a regular expression over printable ASCII
  badlabel        a label is published as GENERATION.0 = GENERATION/SLOT,
                  deleted as GENERATION.1, and never named `rs`
  badversion      EPOCH isn't the caller's generation, or SEQ is 4294967295
  nocaller        no live label has the endpoint CALLER: the caller is dead, or
                  RS hasn't published it yet
  notallowed      labels and sweeps are RS's: CALLER must be 0/2
  notowner        the entry is another owner's: choose another name
  clash           this very version has another value: use a greater SEQ
  stale           a greater version is held, or a floor makes the change void:
                  it comes too late
  exists          say `over` to replace it
  notfound        there is no such live entry, label or subscription
  oldcursor       INCARNATION is another store's, or an earlier one
  ahead           POSITION is above the store's
  behind          the ring doesn't reach back to POSITION: ask for a snapshot,
                  or pages
  full            4096 keys are held, tombstones too, or 64 owners have floors
  noroom          memory ran out, or PATTERN compiles to too much:
                  `[a-z0-9]` takes far less than `\\w`

For lines to RS:
  tickback        TICK is below the last one that RS took
  worn            TICK is above 2^62
  unknownlabel    no service has this label, or there are no settings yet
  badcause        CAUSE isn't 1 to 6
  alreadyup       the service is up; or it waits, and `restart` starts it at
                  once
  notup           the service isn't up; one that waits can be stopped, too, and
                  one that waits or was given up can be restarted
  oldendpoint     no service that is up is at ENDPOINT

For settings, `exists` after accepted ones, else as in `dsctl settings --help`:
  toml            the text isn't a TOML document; a line can't name a file, but
                  `dsctl settings --line FILE` prints the line for it
  unknownfield    a field has an unknown name
  missing         a service has no label, no class or no unit
  outofrange      a value has the wrong type, or is out of range
  twolabels       two services have one label
  twounits        two services have one unit
  sharedname      two services publish one name

For the file server's and the network server's lines, after `nomap`:
  assigned        the unit has a driver: units are assigned once
  twoids          ID isn't above every accepted one; the moves printed before it
                  took place
  nodevice        no driver is assigned to UNIT; the moves printed before it
                  took place
  notpending      there is no such request, or it was answered
  oldendpoint     the request wasn't last sent to ENDPOINT

Exit status:
  0  the whole script was answered, the settings have no fault, the trace is
     legal, or all of it was written
  1  a line can't be read: `badline LINE PLACE` is printed, lines counted from 1
     and bytes from 0, and standard error says what was expected; or the
     settings have a fault: `bad WORD INDEX` is printed, and standard error
     names each; or the trace isn't legal: `illegal LINE` or `badline LINE`
     is printed, and standard error says what was expected there. `dsctl record`
     and `dsctl upgrade`, which print a trace, report it on standard error only;
     or a line of the script that `--load` names is bad, or refused
  2  the command line is wrong, or a file can't be opened
  3  memory, reading or writing failed, also where the reader of the answers
     went away: standard error has `noroom`, `readfault` or `writefault`, and
     at a terminal the system's reason; or `dsctl live` failed, with a word
     that its help lists";

pub(crate) const KEEP_GOING_ABOUT: &str = "Continue after a bad line; status 1 at the end";

pub(crate) const STOP_ABOUT: &str = "End at a bad line, at a terminal too";

pub(crate) const ENDS_ABOUT: &str = "End each answer by an empty line";

pub(crate) const LOAD_ABOUT: &str = "Run this script first, without printing its answers";

pub(crate) const SAVE_ABOUT: &str = "Save the store at the end, as a script for --load";

pub(crate) const LINE_ABOUT: &str = "Print them as a line of a script";

pub(crate) const SETTINGS_ABOUT: &str = "Show the services of a settings text, or its first fault";

pub(crate) const SETTINGS_LONG_ABOUT: &str = "\
Shows the services of a settings text for the reincarnation server (RS), or the
text's first fault.

The text is a TOML document, in the file or on standard input. Nothing is
printed before all of it is judged. For each service there is a line
`service LABEL CLASS UNIT period P limit L publishes N`, with `-` for the unit
of a server, and with `complains N connects N forget F startup S` at its end,
without those that are missing or 0. Then there is one line
`services N slots S`. For a fault, the only line is `bad WORD INDEX`, INDEX
being that of the service, from 0, and left out if the fault isn't a service's;
standard error has a sentence for each fault, with its line.

With `--line` the output is one line, `settings service = [{..}, ..]`, for a
script. It has no `slots` beside services, and no field of format 2; standard
error says what is left out. A line that would be above 4096 bytes isn't
printed, with status 1.

At the top:
  format     2 for a text of format 2; without it a text is of format 1
  slots      process slots that RS may use, 1 to 1008; 64 by default
  [[service]]  up to 64 services

Of a service:
  label      its name, 1 to 64 letters, digits, `.`, `_` and `-`; not `rs`
  class      \"block\", \"character\", \"network\" or \"server\"
  unit       0 to 255: its major number, or its port if it is a network
             service; a server has none
  period     ticks from one ping to the next, 0 to 1000000; 0, for none, by
             default
  limit      how many failures in a row RS answers by another start, 0 to 1000;
             0 by default, and 5 in format 2
  publishes  the names that it may publish in the data store, 64 at most

Of a service, in format 2 only:
  complains  the labels of the services that it may complain of, 64 at most; by
             default a server may complain of every other class of service
  connects   the labels of the services that it may connect to, 64 at most; by
             default all
  forget     after how many ticks of one instance the failures before it no
             longer count, 0 to 1000000000, with 0 for never; 6000 by default
  startup    ticks that an instance has to start, 0 to 1000000: its first period
             counts from then on, or from its first heartbeat; 0 by default

No two services have the same label, no two block or character services the same
major number, no two network services the same port, and no name is published
twice.

The words of faults. The top of the text is judged first, then each service,
then services with each other; within each of these, this is the order:
  toml          the text isn't a TOML document
  unknownfield  a field has another name than these
  missing       a service has no label, no class or no unit
  outofrange    a value has the wrong type, or is out of range
  twolabels, twounits, sharedname
                two services have one label, one unit, one published name:
                INDEX is the second's";
