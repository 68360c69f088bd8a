//! Laws of wholeness, of pages, of catching up and of agreement, over lists of items alone.
//!
//! Items are whole if they leave out nothing that a store accepted. The laws say how a reader gets whole items, and what
//! a holder of them holds. `ds_replica` uses them. In MINIX 3 a subscriber that missed something asks again. Snapshots,
//! pages, the journal and the promise that they leave out nothing are this project's.
//!
//! Two stores that exchange what they know, subscribers' maps, and the messages between them: the events of such a
//! world, what each holder knows, and laws over every list of events. `ds_world` implements it.
//!
//! Replicas, messages and the join of knowledge are of this project. MINIX 3's data store is one server (Tanenbaum and
//! Woodhull, third edition), which its subscribers query again (Herder and others, DSN 2007).
//!
//! Messages, of this project: the replies with items that a world keeps, since they may be delivered at any later time.
//! A message's items may be packed to save memory; its value doesn't change.
#![tactic(auto)]

mod event;
mod head;
mod laws;
mod lent;
mod message;
mod outcome;
mod premises;
mod seed;
mod world;

pub use event::{Event, Holder, Side};
pub use head::Head;
pub use laws::{
    agreement_laws, catch_up_laws, check_laws, label_laws, page_laws, taking_laws, turn_laws,
    whole_laws,
};
pub use lent::Lent;
pub use message::Message;
pub use outcome::{EventFault, Outcome};
pub use premises::{holder_premises, page_premises, whole_premises};
pub use seed::Seed;
pub use world::{
    accounts_fit, floors_stand, holders_agree, items_are_brought, maps_catch_up,
    messages_are_whole, rows_happen, stores_grow,
};
