//! What a part that stands before a Take waits for: the messages in its queues. It has no code; its clauses are the laws.
#![tactic(auto)]

mod law;

pub use law::takes_wait;
