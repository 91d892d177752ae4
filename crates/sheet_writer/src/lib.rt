// Writes forms as rows, and rows as a sheet, byte by byte.
#![tactic(auto)]

mod cell;
pub mod draft;
mod drafting;
mod packing;
mod parts;
pub mod row;
