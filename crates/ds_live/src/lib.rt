//! Runs jobs, each in a thread of its own. All of them come back.
//!
//! A job may borrow, since its thread is joined before the call returns. If a thread can't be made, the run is given up. All jobs come
//! back then, too.
//!
//! The threads of a run at two desks of stores: publishers, subscribers, and one that exchanges.
//!
//! They play MINIX 3's drivers, the servers that follow drivers by the data store (DS), and a second replica. Their turns, and the gate
//! before each turn, are this project's.
//!
//! A run of threads that share two stores: publishers, followers, and an exchange between the two replicas.
//!
//! `live_run` runs drivers, servers that follow them by MINIX 3's data store (DS), and an exchange with a second replica, each in a thread
//! of its own, and reports the result. The run and its report are this project's.
#![tactic(auto)]

mod back;
mod closing;
mod commands;
mod crew;
mod dismissing;
mod exchanging;
mod following;
mod gate;
mod given_up;
mod hiring;
mod job;
mod live_fault;
mod publishing;
mod report;
mod run;
mod sizes;
mod task;
mod turns;
mod worker;
mod worker_fault;
mod working;

pub use crew::NoThread;
pub use desk_store::{
    CallFault, ExchangeFault, Exchanged, Follower, Fresh, RefreshFault, Seat, exchange_once,
    refresh,
};
pub use gate::{Gate, OpenGate};
pub use live_fault::LiveFault;
pub use report::{LiveReport, LiveRun};
pub use run::live_run;
pub use sizes::Sizes;
pub use worker_fault::WorkerFault;
