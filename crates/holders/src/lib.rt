//! Holders of items: stores and subscribers' maps, any number of them, in one process or on many hosts. What each holds
//! follows from what it was brought.
//!
//! There is no code here, but laws of the two that programs run: `ds_store` and `ds_submap`.
#![tactic(auto)]

mod laws;

pub use laws::{labels_are_no_older, readers_agree, two_holders_agree, two_premises_are_needed};
