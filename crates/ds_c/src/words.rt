// What calls return, besides the numbers of other refusals.

pub(crate) const DONE: u32 = 0;

pub(crate) const BAD_SUB: u32 = 1;

pub(crate) const BAD_KIND: u32 = 5;

pub(crate) const NOT_ALLOWED: u32 = 9;

pub(crate) const STALE: u32 = 12;

pub(crate) const NOT_FOUND: u32 = 14;

pub(crate) const AHEAD: u32 = 16;

pub(crate) const BEHIND: u32 = 17;

pub(crate) const WORN: u32 = 19;

pub(crate) const NO_ROOM: u32 = 20;

pub(crate) const IS_CLOSED: u32 = 23;

pub(crate) const IS_OPEN: u32 = 24;

pub(crate) const NOT_PENDING: u32 = 43;

pub(crate) const IS_BUSY: u32 = 44;

pub(crate) const NO_SEAT: u32 = 45;

pub(crate) const NO_LINES: u32 = 46;
