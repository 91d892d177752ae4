// A venue: its days, and the six steps that firms take on it, on any book.
#![tactic(auto)]

pub mod changing;
pub mod closing;
pub mod day;
pub mod entering;
pub mod lookup;
pub mod plan;
pub mod removing;
pub mod room;
pub mod setup;
pub mod stepping;
