// Reads a row of a sheet that is written as a line of text: the letter, then cells by name, as
// `X firm=12 number=3`.
#![tactic(auto)]

mod cells;
mod columns;
mod forming;
pub mod line;
mod values;
pub mod words;
