// Reading a manifest: what a text says of a module, its path and the rows that it requires and excludes, or why it cannot be read and at which
// line. The text is lent and read in one pass, line by line; the rows go into two slices that are lent too.
#![tactic(auto)]

pub mod kinds;
mod lines;
pub mod reading;
mod rows;
