// What a step is given, cell by cell, and what it may be refused with.
#![tactic(auto)]

pub mod form;
pub mod refusal;
