// The slot book: 32 slots of its own for each queue, with the rows in rank order and free slots
// between (rules 5).
#![tactic(auto)]

pub mod book;
mod slots;
pub mod store;
