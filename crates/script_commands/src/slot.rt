//! The kinds of slots of a line.

/// A slot of a line, and the text that fills it. Its name in the manual is its name here in capitals, unless another is
/// given. A space comes before every slot except `End`.
#[derive(Clone, Copy)]
pub enum Slot {
    /// `CHANGE` or `FLOOR`: an item, with the newline of its line.
    Item,
    /// The endpoint of the caller.
    Caller,
    /// `new` or `over`.
    Mode,
    /// `NAME KIND`: a key.
    Key,
    /// `EPOCH.SEQ`: a version.
    Version,
    /// `= VALUE`: a value of the kind of the key before it, with the newline of its line.
    Value,
    /// The name of an owner.
    Owner,
    /// A generation, 0 to 2097151.
    Generation,
    /// The endpoint of the instance or driver that the line is about.
    Endpoint,
    /// The number of a subscription, below 2^32.
    Sub,
    /// A pattern in quotes.
    Pattern,
    /// The sum of one or more kinds, 1 to 15.
    Kinds,
    /// `first` or `later`.
    Initial,
    /// The most items wanted, below 2^32.
    Max,
    /// `J`: the number of a map, below 2^64.
    Map,
    /// `N`: the number of items that a journal keeps, 1 to 4096.
    Ring,
    /// `a` or `b`.
    Side,
    /// An incarnation, below 2^64.
    Incarnation,
    /// A position, below 2^64.
    Position,
    /// `K`: the number of a message, below 2^64.
    Message,
    /// `a`, `b`, or `mJ` for a map.
    Holder,
    /// The number of items to deliver, below 2^32, or `*` for all.
    Count,
    /// `*`, or `PATTERN KINDS`.
    Scope,
    /// `AFTER MAX`: the key after which a page begins, `NAME KIND` or `-`, and the most changes. They are one slot,
    /// since what follows a `-` decides whether it is a name.
    Range,
    /// `REST`: the rest of the line, any bytes, with the newline of its line.
    Text,
    /// `up`, `down`, `refresh` or `restart`.
    Request,
    /// The label of a service or a driver: a name.
    Label,
    /// The number of a tick, below 2^64.
    Tick,
    /// The number of a cause of death, below 2^64.
    Cause,
    /// `file MAJOR block`, `file MAJOR character`, or `net PORT`: the unit of a driver. MAJOR and PORT are 0 to 255.
    /// These words are one slot: the first decides what follows it.
    Device,
    /// `file` or `net`.
    Server,
    /// The number of a request, below 2^64.
    Id,
    /// The number of a major device or a port, 0 to 255.
    Unit,
    /// The newline.
    End,
}
