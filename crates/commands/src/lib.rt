// What the program does with values: how a word names a source, how a file is packed into a tree, how an answer is told. All else of the program
// reads, writes and prints, of which no contract can speak.
#![tactic(auto)]

pub mod arguments;
pub mod chains;
pub mod packing;
