//! Lists whose elements stay in their slots while others are inserted before them.
//!
//! What a replica or a subscriber holds: of each owner its greatest floor, and of each key the change with the
//! greatest version that no floor voids.
//!
//! Merging a change and raising a floor are joins: the result doesn't depend on the order in which they arrive, nor
//! on repeats. Floors end what a dead driver left, even what arrives late. They are of this project; MINIX 3's data
//! store has neither versions nor floors.
#![tactic(auto)]

mod floors;
mod guesses;
mod held;
mod join;
mod laws;
mod limits;
mod list;
mod order;
mod reading;
mod rows;
mod slots;
mod void;

pub use held::Held;
pub use laws::held_places_need_no_room;
pub use limits::Limits;
pub use rows::Rows;
