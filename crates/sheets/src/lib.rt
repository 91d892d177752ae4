// Reads a sheet from bytes, row by row; with each row comes a slip, the duty to post one reply.
#![tactic(auto)]

pub mod bytes;
pub mod cells;
pub mod directory;
pub mod letter;
pub mod replies;
pub mod reply;
pub mod row;
pub mod sheet;
pub mod slip;
