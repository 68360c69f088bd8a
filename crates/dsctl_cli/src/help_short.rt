//! The ten commonest lines, for a user at the prompt.

/// What `help` shows at the prompt, in fewer rows than a terminal has.
pub(crate) const COMMONEST: &str = "\
The commonest lines:
  publish CALLER new NAME KIND EPOCH.SEQ = VALUE  put a value; `over` to replace
  retrieve NAME KIND                              print a value
  delete CALLER NAME KIND EPOCH.SEQ               end a live entry
  nameof ENDPOINT                                 print whose endpoint it is
  sweep CALLER OWNER GENERATION                   raise a dead owner's floor
  subscribe SUB PATTERN KINDS first new           follow; or `later`, or `over`
  check SUB MAX                                   print what changed
  offer NAME KIND OWNER EPOCH.SEQ = VALUE         merge a put
  snapshot SCOPE                                  print all that is held
  show                                            print the entries

CALLER and ENDPOINT are GENERATION/SLOT; 0/2 is RS. KIND is label, u32, str or
mem. A label's EPOCH is its generation. Three lines to begin with:
  publish 0/2 new eth0 label 3.0 = 3/17           RS says where eth0 is
  publish 3/17 new mtu u32 3.0 = 1500             eth0 publishes its MTU
  retrieve mtu u32                                a client reads it

help all shows all lines, help WORD explains a line, an answer, a refusal or a
kind. quit, exit or ^D ends.";
