// Orders, stops, the plain rows that they are stored as, and how they rank.
#![tactic(auto)]

pub mod compare;
pub mod lots;
pub mod order;
pub mod price;
pub mod rank;
pub mod ranked;
pub mod row;
pub mod side;
