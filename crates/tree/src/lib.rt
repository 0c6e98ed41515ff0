// A tree: files in a lent buffer, checked once when it is opened. A file is a field N, its name, and a field B, its body. The manifest of a
// module version is the file of a certain name, and is read when it is asked for.
#![tactic(auto)]

mod escapes;
pub mod examples;
mod filenames;
pub mod layout;
pub mod opening;
pub mod order;
pub mod questions;
mod reading;
pub mod tree;
