//! Stores and maps of C are holders: each was brought just what its calls did.
//!
//! There is no code here, but laws of the calls that `c_rs` and `c_store` promise.
#![tactic(auto)]

mod laws;

pub use laws::{handles_agree, maps_of_handles, stores_of_handles};
