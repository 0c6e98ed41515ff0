// A project: a main module with its requirement rows, on an exclude layer over any source. Each call answers and leaves what the rules make of it;
// a refused one leaves the project as it was.
#![tactic(auto)]

pub mod loading;
pub mod main_module;
pub mod project;
