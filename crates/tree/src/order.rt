// Which fields of a tree may come next: names and bodies in turn, of any bytes.
ghost use Rattle.tree.specs.Grammar.{follow as following, may_end};

use causes::cause::Cause;
use fields::opening::Next;

// Kept: an enum of its own beside that of shelves, since the cases are others; what opening does with them is one function over `Next`.
#[derive(Clone, Copy)]
pub enum Expected {
    // the name of a file, or the end
    Name,
    // the body of a file
    Body,
}

impl Next for Expected {
    ghost follow = { following };

    ghost ends = { may_end };

    fn behind(self, tag: u8, body: &[u8]) -> Result<Expected, Cause> {
        match (self, tag) {
            (Expected::Name, b'N') => Ok(Expected::Body),
            (Expected::Body, b'B') => Ok(Expected::Name),
            _ => Err(Cause::DamagedBuffer),
        }
    }

    fn may_end(self) -> bool {
        matches!(self, Expected::Name)
    }
}
