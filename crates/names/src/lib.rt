// Texts of bounded length, held in place, the kinds of text that are told apart by what is well formed, and paths.
#![tactic(auto)]

pub mod bytes;
pub mod formed;
pub mod grammar;
pub mod path;
pub mod text;
