// Paths. A plain path is a text that claims nothing and stands in the order of paths: what tables and slices hold. A path is one that is
// well formed: 1 to 48 bytes, elements joined by slashes.
use crate::formed::{Formed, Plain};

pub mod checks;
pub mod kind;

// The kind of text that a path is.
#[derive(Clone, Copy, PartialEq, Eq, Debug)]
pub struct Paths;

pub type PlainPath = Plain<Paths>;

pub type Path = Formed<Paths>;
