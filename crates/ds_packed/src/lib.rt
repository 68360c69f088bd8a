//! Packed lists of items, for items without texts and blobs.
//!
//! A packed item takes the bytes of its names and a row of numbers. An `Item` takes as many bytes as the longest names.
//! Packing is this project's.
#![tactic(auto)]

mod names;
mod packed;
mod row;
mod unpacking;

pub use packed::Packed;
pub use unpacking::Unpacking;
