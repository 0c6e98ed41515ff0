// The text of a manifest as lines, and a line as words. A line ends at a line feed or at the end of the text; the first is line 1. A comment runs
// from the first two slashes of a line to its end. Space, tab and carriage return part words, and a bracket is a word by itself. Nothing is
// copied: lines and words borrow the text.
#![tactic(auto)]

pub mod lines;
pub mod shapes;
mod slots;
pub mod verbs;
pub mod words;
