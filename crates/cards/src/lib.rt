// The front card: a book that holds back the latest rewrite of each queue's first record from the
// book below it (rules 5).
#![tactic(auto)]

pub mod card;
