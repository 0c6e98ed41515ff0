// Versions as values. A plain version is a text that claims nothing and stands in the order of versions: what tables and slices hold. A
// version is one that is well formed.
use names::formed::{Formed, Plain};

pub mod kind;

// The kind of text that a version is.
#[derive(Clone, Copy, PartialEq, Eq, Debug)]
pub struct Versions;

pub type PlainVersion = Plain<Versions>;

pub type Version = Formed<Versions>;
