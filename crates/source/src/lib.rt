// Sources. A source is asked for the requirement list of a module version, and one that can list also for the versions of a path. Each answers
// in a slice that the caller lends: with how many it found, or with a fault; and what it means never changes.
#![tactic(auto)]

pub mod fault;
pub mod lent;
pub mod questions;
pub mod slices;
