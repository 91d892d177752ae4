// Works sheets at a venue: each row asks for a step, and the step's answer is posted as the row's
// reply.
#![tactic(auto)]

pub mod row;
pub mod sheet;
