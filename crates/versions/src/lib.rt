// Versions as texts. A version is v, three numbers joined by dots, then perhaps a dash and identifiers joined by dots, at most 40 bytes in
// all. Versions stand by precedence: the numbers by their value from the left, then the identifiers from the left; a version without
// identifiers is above the same one with some.
#![tactic(auto)]

mod kinds;
mod pieces;
pub mod texts;
pub mod version;
