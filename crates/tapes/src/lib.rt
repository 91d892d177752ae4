// The tape, its lines, and the causes of a cancel.
#![tactic(auto)]

pub mod cause;
pub mod line;
pub mod tape;
