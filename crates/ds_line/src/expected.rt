//! The part of a line that a reader expects next.

use ds_names::Kind;

/// A part of a line, by its meaning. A reader notes each part before it reads it. So if a part can't be read, the note
/// says what was expected.
///
/// The parts of changes and floors come first. The others are for callers that read lines of their own.
#[derive(Clone, Copy, Debug, PartialEq, Eq)]
pub enum Expected {
    /// The space before another part.
    Space,
    Name,
    Kind,
    /// The owner of a change or a floor.
    Owner,
    Epoch,
    /// The dot between an epoch and a sequence number.
    Dot,
    Seq,
    /// `=` or `-`.
    Mark,
    /// A value of the kind.
    Value(Kind),
    /// The newline.
    End,
    /// The first word of a line.
    Command,
    /// The endpoint of the caller.
    Caller,
    /// The endpoint whose label is looked up.
    Endpoint,
    /// `new` or `over`.
    Mode,
    /// `=` alone.
    Equals,
    Generation,
    /// The number of a subscription.
    Sub,
    /// The most changes that the answer may have.
    Max,
    Pattern,
    Kinds,
    /// `first` or `later`.
    Initial,
    /// The number of a map.
    Map,
    /// The capacity of a journal, in items.
    Ring,
    /// `a` or `b`, a side of a world.
    Side,
    /// The number of an incarnation.
    Incarnation,
    /// A position in a journal.
    Position,
    /// `*`, or a pattern and kinds.
    Scope,
    /// The key after which a page begins, or `-`.
    After,
    /// The number of a message.
    Message,
    /// The receiver of a message: a side, or a map.
    Holder,
    /// How many of a message's items to deliver, or `*`.
    Count,
    /// `up`, `down`, `refresh` or `restart`.
    Request,
    /// The label of a service or a driver.
    Label,
    /// The number of a tick.
    Tick,
    /// The number of a cause of death.
    Cause,
    /// `file` or `net`.
    Server,
    /// The number of a major device.
    Major,
    /// `block` or `character`.
    Class,
    /// The number of a port.
    Port,
    /// The number of a request.
    Id,
    /// The number of a major device or a port.
    Unit,
    /// An earlier newline, since the line is too long.
    Limit,
}
