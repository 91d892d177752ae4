// What a book of orders and stops is, and the one book over four stores of plain rows.
#![tactic(auto)]

pub mod book;
pub mod looks;
pub mod orders_of;
pub mod queue;
pub mod queue_store;
pub mod stored_book;
pub mod stored_row;
