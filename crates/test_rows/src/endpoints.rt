//! Endpoints, printed.

use crate::telling::tell;
use ds_names::{Endpoint, Generation};
use std::alloc::Global;

// Generations and slots.
const ENDPOINTS: [(u32, u16); 4] = [(0, 2), (3, 17), (2097151, 1023), (10, 0)];

/// Writes the text of each endpoint. `None`: no such endpoint, or out of memory.
pub(crate) fn tell_rows(text: &mut Vec<u8>, alloc: Global) -> Option<()> {
    tell(text, &[b"endpoints\n"])?;
    for (generation, slot) in ENDPOINTS {
        tell_endpoint(text, alloc, generation, slot)?;
    }
    Some(())
}

fn tell_endpoint(text: &mut Vec<u8>, alloc: Global, generation: u32, slot: u16) -> Option<()> {
    let endpoint = Endpoint::of(Generation::of(generation)?, slot)?;
    let printed = endpoint.print(alloc).ok()?;
    tell(text, &[printed.as_bytes(), b"\n"])
}
