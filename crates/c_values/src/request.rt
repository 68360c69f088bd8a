//! Requests of C.

/// A request, as C sets it. A text, a blob, a pattern and the lines of items are in a separate buffer.
#[repr(C)]
#[derive(Clone, Copy)]
pub struct Request {
    /// The cursor of a Since.
    pub incarnation: u64,
    pub position: u64,
    /// The place of the request's text within the texts, and its length in bytes.
    pub text_at: u64,
    pub text_length: u64,
    /// The number of the command, from 0 in the order of `Command`'s variants.
    pub command: u32,
    /// With `slot`, the endpoint of the caller or of a NameOf.
    pub generation: u32,
    /// The version.
    pub epoch: u32,
    pub seq: u32,
    /// The value of a number, or the generation of a label's endpoint or of a Sweep.
    pub value: u32,
    pub sub: u32,
    pub max: u32,
    pub slot: u16,
    /// The slot of a label's endpoint.
    pub value_slot: u16,
    /// A kind of a key, or a sum of kinds of a query: 1 label, 2 u32, 4 str, 8 mem.
    pub kinds: u8,
    /// Not 0 to replace a live entry or a subscription.
    pub overwrite: u8,
    /// Not 0 to show a subscription what is held already.
    pub initial: u8,
    /// Not 0 if the scope of a Since, Snapshot or Page is a pattern and kinds. 0 if it is all keys.
    pub under: u8,
    /// 0 for a first Page, else the kind of the key after which the Page begins.
    pub behind: u8,
    /// The length of the name of a key, or of a Sweep's owner.
    pub name_length: u8,
    pub name: [u8; 64],
}
