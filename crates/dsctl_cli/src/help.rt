//! The help of `dsctl`, and all lines of a script.

pub(crate) const ABOUT: &str =
    "Answers a script of data store commands, in the manner of MINIX 3's DS";

pub(crate) const LONG_ABOUT: &str = "\
Replays a script against a data store in the manner of MINIX 3's DS, and prints
each answer.

The script is read from the file that is named, or from standard input, one
command a line, and each answer is printed before the program waits for the next
line. The store keeps, for each name and kind, the change with the greatest
version, and for each owner the highest floor, which ends what the owner left: a
late or repeated message never brings back a dead driver's endpoint, nor what
the driver published. There are two such stores, side a and side b, and maps of
subscribers; all begin empty, in memory, and are gone when the program ends:
`dsctl replay --save FILE` saves the current store, and `--load FILE` begins
with it. The items that a store prints are a message, which can be delivered to
any of them.

A script also drives RS, the reincarnation server, which starts drivers and
restarts those that die, and a file server and a network server, which send
requests to drivers and learn from a map where the drivers are.

A line that can't be read ends the script, and standard error says what was
expected there and what was found; `dsctl replay --keep-going` continues after
it. If the first line is `script 2`, lines that begin with `#`, and empty lines,
are passed over. With `dsctl replay --ends` an empty line ends each answer.

At a terminal there is a greeting and a prompt, bad lines are skipped, unless
`dsctl replay --stop` is given, and a refusal is explained. At the prompt `help`
or `?` shows the commonest lines, `help all` shows all, `help WORD` explains a
line, an answer, a refusal or a kind, and `quit`, `exit` or ^D ends.

Lines of a script:
  publish CALLER new NAME KIND EPOCH.SEQ = VALUE
                     put a value in the caller's name; with `over` for `new`,
                     replace a live entry
  delete CALLER NAME KIND EPOCH.SEQ
                     end a live entry of the caller's
  sweep CALLER OWNER GENERATION
                     raise the floor of a dead owner, which ends what the owner
                     published, labels aside; the answer is `swept N`, N being
                     the number of puts that it drops
  retrieve NAME KIND print a value: `found VALUE`
  nameof ENDPOINT    print the label that has an endpoint: `named NAME`
  subscribe SUB PATTERN KINDS first new
                     follow all that is held under a query, and all changes;
                     with `later` for `first`, the changes alone; with `over`
                     for `new`, replace another subscription. The answer is
                     `subscribed STAMP`
  check SUB MAX      print the first MAX floors and changes that the
                     subscription wasn't shown yet, then
                     `checked N BEFORE AFTER`, its stamp before and after
  since SCOPE INCARNATION POSITION MAX
                     print the first MAX items that took effect from a cursor
                     on, then `since N INCARNATION POSITION`, with the cursor
                     to continue from
  snapshot SCOPE     print the floors and all that is held, then
                     `snapshot N INCARNATION POSITION`
  page SCOPE AFTER MAX
                     print the first MAX changes that are held after the key
                     NAME KIND, or with `-` for it the floors and the first
                     MAX changes, then `page N more INCARNATION POSITION`, or
                     `last` for `more`
  deliver K HOLDER COUNT
                     deliver the first COUNT items of message K, or with `*`
                     all, to `a`, `b` or `mJ`: `merged DONE TAKEN STALE`, or
                     `stopped DONE` and why
  side a             send commands to store a from now on, or with `b` to the
                     other one
  restart a INCARNATION
                     restart store a, empty, or with `b` the other one:
                     `restarted`
  ring N             on the first line only: how many items both stores
                     remember for `since`, 256 by default
  map PATTERN KINDS  make a map of what is under a query: `map J`
  entries J          print the entries of a map, then `shown N`
  clear J            empty a map: `cleared`
  offer CHANGE       merge one change, from any owner
  offer FLOOR        raise a floor that was raised elsewhere
  show               print the live entries, in key order, then `shown N`
  all                print the floors, in the order of their owners, and then
                     the entries with tombstones
  settings REST      begin RS, once, with the services of a settings text, which
                     is the rest of the line: `services N slots S`
  service up LABEL TICK
                     have RS start a service; with `down` for `up`, stop it;
                     with `refresh`, replace its instance by another; with
                     `restart`, start it before its time
  death ENDPOINT CAUSE TICK
                     report the death of an instance to RS: 1 exit or panic,
                     2 exception, 3 killed by a user, 4 no heartbeat,
                     5 complaint, 6 update
  beat ENDPOINT TICK report to RS that an instance lives
  tick TICK          report the time to RS, which does the first thing that is
                     due, if anything is
  assign file MAJOR block LABEL
                     assign a block driver to a unit of the file server, or
                     with `character` for `block` a character driver;
                     `assign net PORT LABEL` is the network server's: `assigned`
  follow J           both servers learn from a map where their drivers are now
  submit file ID UNIT J
                     the file server, or with `net` for `file` the network
                     server, learns from a map, and then has a request for a
                     unit
  reply file ENDPOINT ID
                     a driver answers a request of the file server, or with
                     `net` for `file` of the network server: `answer ID done`

`dsctl settings` shows the services of a settings text; `dsctl settings --help`
lists its fields. `dsctl verify` judges a recorded trace of a store; `dsctl
verify --help` lists the lines of a trace. `dsctl record` writes the trace of a
run of its own, and `dsctl upgrade` writes an older trace in the newer format.
`dsctl live` runs threads that share a store; `dsctl live --help` says what they
do.

After `service`, `death`, `beat` and `tick`, RS's actions are printed, and then
`actions N`. Those that go to the store, `offer CHANGE` and `sweep OWNER
GENERATION`, have the store's answer below them. TICK never goes back. Repeat a
`tick` with one number until it answers `actions 0`.

After `follow` and `submit`, the servers' moves are printed, the file server's
first, and then `moves N`. Each ID must be greater than all IDs before it.

Answers:
  taken              it took effect
  known              a repeat: it is held already
  stale              it comes too late: something newer is held
  refused WORD       it changed nothing, for the reason that WORD names
  found VALUE        the value of a live entry
  named NAME         the label that has an endpoint
  swept N            the owner's floor is raised, and N puts are dropped
  subscribed STAMP   the subscription is made
  checked N BEFORE AFTER
                     N items were printed; the subscription's stamp before and
                     after that
  merged DONE TAKEN STALE
                     DONE items were delivered: TAKEN took effect, STALE came
                     too late, the others were known or not under the query
  stopped DONE WORD  the delivery ended after DONE items: the next one is
                     refused, for the reason that WORD names
  restarted          the store is empty, and has the new incarnation
  cleared            the map is empty
  shown N            N lines of entries were printed
  assigned           the unit has the driver
  services N slots S
                     RS begins with N services
  kill ENDPOINT      an action of RS: an instance is to end, if it hasn't
  start LABEL ENDPOINT
                     an action of RS: an instance of the next generation starts
  ping ENDPOINT      an action of RS: an instance has to answer by a `beat`
  actions N          N actions of RS were printed
  send ID ENDPOINT   a move: the request goes to the driver
  held ID            a move: a block driver is missing; the request is sent once
                     it is up
  answer ID done     a move, or the answer to `reply`: the driver answered; with
                     `fault` for `done`, a driver that isn't a block driver is
                     missing, or died
  start UNIT ENDPOINT
                     a move: a network driver arrived
  moves N            N moves of the servers were printed
  owed MASK          after another answer: something changed under the queries
                     of the subscriptions in MASK
  badline LINE PLACE
                     the line can't be read: LINE is counted from 1, PLACE, a
                     byte, from 0

Parts of lines and answers:
  CALLER             the ENDPOINT that sends a command; 0/2 is RS, which alone
                     publishes labels and sweeps
  ENDPOINT           GENERATION/SLOT, up to 2097151/1023: where an instance is
  GENERATION         the number of a driver's instance, 0 to 2097151
  NAME               1 to 64 letters, digits, `.`, `_` and `-`
  LABEL              the NAME of a driver or another service
  OWNER              the LABEL of who publishes an entry; a label's is rs
  KIND               label, u32, str or mem
  VALUE              what an entry has, as its KIND says
  EPOCH              the caller's GENERATION; a label's is its driver's
  SEQ                0 to 4294967295: the number of a change within its EPOCH
  version            EPOCH.SEQ: of two changes of one name and kind, the one
                     with the greater version is held
  CHANGE             a put or a tombstone, as below
  tombstone          a CHANGE that ends an entry
  FLOOR              `! OWNER GENERATION`, as below
  item               a CHANGE or a FLOOR
  PATTERN            a regular expression in quotes that matches a whole name,
                     with \\\" and \\\\ for a quote and a backslash
  KINDS              the sum of 1 for label, 2 for u32, 4 for str and 8 for mem
  query              PATTERN KINDS
  SUB                the number of a subscription, 0 to 127, eight for each of
                     16 servers
  MASK               subscriptions that are owed a notice, in hex, with the bit
                     of each SUB
  STAMP              a number that a store counts, over all subscriptions; each
                     `subscribed`, and each `checked` with items, has the next
  MAX                how many items to print, 1 to 256
  SCOPE              `*`, or PATTERN KINDS
  INCARNATION        the number of a store's run, at first 1 for side a and 2
                     for side b
  POSITION           how many items took effect in a store
  cursor             INCARNATION POSITION
  AFTER              NAME KIND, or `-` for the first page
  message            the items that a `check`, `since`, `snapshot` or `page`
                     printed, unless it was refused; it can be delivered late,
                     twice and in any order
  K                  the number of a message, counted from 0
  HOLDER             `a`, `b`, or `m` and the number of a map
  COUNT              a number of items, or `*` for all
  J                  the number of a map, counted from 0, 64 at most
  TICK               a time, as a number
  CAUSE              why an instance died, 1 to 6
  UNIT               a driver's major number, or its port, 0 to 255
  MAJOR              the UNIT of a block or a character driver
  PORT               the UNIT of a network driver
  ID                 the number of a request
  REST               a settings text in one line
  new                nothing is replaced: the key has no live entry, SUB is free
  over               what is there, if anything, is replaced
  first              all that is held is shown by the first checks
  later              what is held already isn't shown
  more               another page follows this one
  last               no page follows this one
  done               the driver carried the request out
  fault              the driver, which isn't a block driver, is missing or died

Two replicas, in six lines:
  publish 0/2 new eth0 label 3.0 = 3/17   at side a, where a script begins
  snapshot *                              what a holds is message 0
  deliver 0 b *                           b gets all of it
  side b                                  commands go to b from now on
  snapshot *                              what b holds is message 1
  deliver 1 a *                           a gets it: both hold the same

A driver that dies and is restarted, in five lines:
  settings service = [{label = \"disk\", class = \"block\", unit = 3, limit = 1}]
  service up disk 0                       it is started, its label published
  death 1/16 1 5                          its label and what it published end
  tick 6                                  it is started in generation 2
  show                                    the store has the new endpoint

A change is a line `NAME KIND OWNER EPOCH.SEQ = VALUE`, which puts a value, or
`NAME KIND OWNER EPOCH.SEQ -`, a tombstone, which ends the entry. Of two changes
of one name and kind, the one with the greater version EPOCH.SEQ is held. The
kinds and their values:
  label  GENERATION/SLOT, the endpoint of a driver; the owner is rs, the epoch
         its generation, the sequence number 0 for a put and 1 for a tombstone
  u32    a number up to 4294967295
  str    \"text\" of up to 256 printable characters, with \\\" and \\\\ for a quote
         and a backslash
  mem    up to 1024 bytes in lower-case hex

A floor is a line `! OWNER GENERATION`: what the owner published in generations
up to this one is void, labels aside. It is dropped, tombstones too, and is
stale if it arrives later. A floor is under every query, and each subscription
is shown it once.";

/// Every line of a script in one row.
pub const LINES: &str = "\
Lines of a script (`dsctl --help` explains them):
  publish CALLER new NAME KIND EPOCH.SEQ = VALUE  put a value; `over` to replace
  delete CALLER NAME KIND EPOCH.SEQ               end a live entry
  sweep CALLER OWNER GENERATION                   raise a dead owner's floor
  retrieve NAME KIND                              print a value
  nameof ENDPOINT                                 print whose endpoint it is
  subscribe SUB PATTERN KINDS first new           follow; or `later`, or `over`
  check SUB MAX                                   print what changed
  since SCOPE INCARNATION POSITION MAX            print what followed a cursor
  snapshot SCOPE                                  print all that is held
  page SCOPE AFTER MAX                            print a page of that
  deliver K HOLDER COUNT                          deliver it to a, b or mJ
  side a                                          send commands to a, or `b`
  restart a INCARNATION                           restart store a, or `b`
  ring N                                          line 1 only: journal size
  map PATTERN KINDS                               make a map
  entries J                                       print the entries of a map
  clear J                                         empty a map
  offer NAME KIND OWNER EPOCH.SEQ = VALUE         merge a put
  offer NAME KIND OWNER EPOCH.SEQ -               merge a tombstone
  offer ! OWNER GENERATION                        merge a floor
  show                                            print the entries
  all                                             print floors, tombstones too
  settings REST                                   begin RS with a settings text
  service up LABEL TICK                           or down, refresh, restart
  death ENDPOINT CAUSE TICK                       report a death, by 1 to 6
  beat ENDPOINT TICK                              report a heartbeat
  tick TICK                                       report the time
  assign file MAJOR block LABEL                   or character; net PORT LABEL
  follow J                                        learn where drivers are
  submit file ID UNIT J                           learn, send a request; or net
  reply file ENDPOINT ID                          answer a request; or net

Limits: NAME 64 bytes, str 256, mem 1024, PATTERN 128, a line 4096; 4096 keys,
64 floors, 128 subscriptions (SUB 0 to 127, eight a server), 64 maps, MAX 256,
65536 messages, a ring of 4096, 64 services, units 0 to 255, ticks to 2^62.";
