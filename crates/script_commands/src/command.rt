//! The lines of a script.

use crate::service::{Device, Request, Server};
use crate::settings_text::SettingsText;
use ds_entry::Item;
use ds_machine::Command;
use ds_names::{Endpoint, Name};
use ds_pattern::Query;
use ds_replica::{Holder, Side};

/// One line of a script, parsed.
#[derive(Drop)]
pub enum ScriptCommand {
    /// `offer ITEM`: merges the item, a change or a floor, into what is held.
    Offer(Item),
    /// `show`: prints the held puts.
    Show,
    /// `all`: prints everything held, including floors and tombstones.
    All,
    /// Sends a command to the store:
    ///
    /// - `publish CALLER new NAME KIND EPOCH.SEQ = VALUE`, or `over` for `new`
    /// - `delete CALLER NAME KIND EPOCH.SEQ`
    /// - `sweep CALLER OWNER GENERATION`
    /// - `retrieve NAME KIND`
    /// - `nameof ENDPOINT`
    /// - `subscribe SUB PATTERN KINDS first new`, or `later` for `first`, or `over` for `new`
    /// - `check SUB MAX`
    /// - `since SCOPE INCARNATION POSITION MAX`
    /// - `snapshot SCOPE`
    /// - `page SCOPE AFTER MAX`
    ///
    /// SCOPE is a pattern and kinds, or `*` for all keys. AFTER is a key, `NAME KIND`, or `-` for the first page. No
    /// line is a `Merge`: an `offer` merges one item.
    Store(Command),
    /// `map PATTERN KINDS`: makes a map, which takes what is delivered to it.
    Map {
        query: Query,
    },
    /// `entries J`: prints the puts of a map.
    Entries {
        map: u64,
    },
    /// `ring N`: the journals of both stores keep the last N items that took effect, 1 to 4096. Only a script's first
    /// line may be this one; `read_line_after` sees to it.
    Ring {
        ring: u32,
    },
    /// `side a` or `side b`: later lines go to the store of this side.
    Side {
        side: Side,
    },
    /// `clear J`: empties a map.
    Clear {
        map: u64,
    },
    /// `restart a INCARNATION`, or `b` for `a`: reopens the store of the side, empty, as this incarnation.
    Restart {
        side: Side,
        incarnation: u64,
    },
    /// `deliver K HOLDER COUNT`: delivers the first COUNT items of a message to a store, `a` or `b`, or to a map, `mJ`.
    /// COUNT `*` is `None`: all items.
    Deliver {
        message: u64,
        holder: Holder,
        count: Option<u32>,
    },
    /// `settings REST`: gives RS its settings. REST is the rest of the line, any bytes, as a settings text.
    Settings {
        text: SettingsText,
    },
    /// `service up LABEL TICK`, or `down`, `refresh` or `restart` for `up`: sends RS a request for a service.
    Service {
        request: Request,
        label: Name,
        tick: u64,
    },
    /// `death ENDPOINT CAUSE TICK`: reports to RS that an instance died.
    Death {
        endpoint: Endpoint,
        cause: u64,
        tick: u64,
    },
    /// `beat ENDPOINT TICK`: reports to RS that an instance lives.
    Beat {
        endpoint: Endpoint,
        tick: u64,
    },
    /// `tick TICK`: reports to RS that time passed.
    Tick {
        tick: u64,
    },
    /// `assign file MAJOR block LABEL`, or `character` for `block`, or `assign net PORT LABEL`: assigns a driver to a
    /// device.
    Assign {
        device: Device,
        label: Name,
    },
    /// `follow J`: both tables follow a map.
    Follow {
        map: u64,
    },
    /// `submit file ID UNIT J`, or `net` for `file`: a table follows a map, and takes a new request for a unit.
    Submit {
        server: Server,
        id: u64,
        unit: u8,
        map: u64,
    },
    /// `reply file ENDPOINT ID`, or `net` for `file`: a table takes a driver's reply to a request.
    Reply {
        server: Server,
        endpoint: Endpoint,
        id: u64,
    },
}
