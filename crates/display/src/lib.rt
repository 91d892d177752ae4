// The printed text of prices, lines of the tape, replies and standing orders.
#![tactic(auto)]

pub mod text;
