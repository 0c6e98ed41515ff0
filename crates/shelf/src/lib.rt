// A shelf: records of module versions in a lent buffer, checked once when it is opened. A record is a field M, a path, a field V, a version,
// and then at most 64 pairs of fields R, a path, and W, a version: the rows that the module version requires.
#![tactic(auto)]

pub mod examples;
pub mod opening;
pub mod order;
pub mod questions;
mod reading;
pub mod shelf;
