//! The rule of a desk: what threads that share one machine may rely on between any two of their steps.
//!
//! A desk is a table of atomic words with one slot, which has the machine. Word 0 has the place of the next call, and one
//! bit that says whether a thread holds the turn, like the sequence number of a sequence lock. Each of 16 servers has a
//! word of pending notices, as MINIX 3 has a bitmap of pending notifications for each receiver. The rule relates the
//! words, the slot and what each thread knows. Each kind of step is a function, and so is a whole turn. Its contract says
//! what it returns, and that it keeps the rule. The rule and its steps are this project's.
#![tactic(auto)]

mod free_call;
mod law;
mod notice;
mod play;
mod seat;
mod step;
mod table;
mod turn;
mod view;

pub use free_call::call_if_free;
pub use history::{Entry, Machine};
pub use law::{
    bits_are_owed, free_turn_is_got, histories_agree, notices_agree, notices_balance,
    one_seat_holds, posted_bits_stay, posts_are_owed, words_follow,
};
pub use notice::{Act, Notice};
pub use play::{EndTurn, Hold, JoinNote, JoinPass, Look, PostBits, SplitNote, SplitPass, TakeBits};
pub use seat::{join_note, join_pass, split_note, split_pass};
pub use step::{look, post, take};
pub use table::{
    DeskRule, DeskSeat, DeskShared, DeskTable, DeskView, Home, LastCall, Opening, Slot,
    close_table, new_table,
};
pub use turn::{NoTurn, call_in_turn};
pub use view::{PassLog, View};
