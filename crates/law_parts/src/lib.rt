//! The laws of a run in parts: what a part holds, what each operation of it takes, posts, hands in and leaves, and that in
//! every order of events each part agrees with the undivided run. It has no code; its definitions are what the core does.
#![tactic(auto)]

mod law;

pub use law::{done_totals, each_event_keeps, each_order_agrees, one_end, one_work};
