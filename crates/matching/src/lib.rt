// The matching engine: how orders are entered, trade, are changed and are removed, on any book.
// Book, tape and session are arguments of their own: a struct of three `&mut` fields would have to
// say in each clause that they still refer to the same book, tape and session.
#![tactic(auto)]

pub mod amendment;
pub mod changing;
pub mod entering;
pub mod new_order;
pub mod reaching;
pub mod removal;
pub mod removing;
pub mod running;
pub mod session;
pub mod stops;
pub mod trading;
