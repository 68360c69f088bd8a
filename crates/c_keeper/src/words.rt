// What calls return, by the numbers of refusals.

pub(crate) const DONE: u32 = 0;

pub(crate) const BAD_KIND: u32 = 5;

pub(crate) const NOT_ALLOWED: u32 = 9;

pub(crate) const EXISTS: u32 = 13;

pub(crate) const NOT_FOUND: u32 = 14;

pub(crate) const BEHIND: u32 = 17;

pub(crate) const NO_ROOM: u32 = 20;

pub(crate) const ALREADY_UP: u32 = 28;

pub(crate) const NOT_UP: u32 = 29;

pub(crate) const NOT_PENDING: u32 = 43;

pub(crate) const IS_BUSY: u32 = 44;
