//! A store that threads of C share at a desk, and the seats from which they call it.
//!
//! A call never waits: it tries for the turn some times, and reports Busy if another seat has it. Desks are this project's.
#![tactic(auto)]

mod board;
mod calling;
mod law;
mod opening;
mod seat;

pub use board::{Board, SeatFault};
pub use calling::Asked;
pub use law::seats_cross;
pub use seat::Seat;
