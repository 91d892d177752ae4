// Validation: from the cells of a form to what is asked, or a refusal of number 7, 8 or 9.
#![tactic(auto)]

pub mod cells;
pub mod changes;
pub mod combinations;
pub mod entries;
pub mod removals;
