// Makes a sheet of a text that has a line for each row.
#![tactic(auto)]

pub mod refused;
pub mod sheet;
