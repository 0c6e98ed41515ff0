// Rows and module versions, and the tables that hold them.
#![tactic(auto)]

pub mod exclusions;
pub mod listing;
pub mod requirements;
pub mod rows;
