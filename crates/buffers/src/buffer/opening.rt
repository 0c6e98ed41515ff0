// Opening a buffer as a kind.
ghost use Rattle.std.specs.Prelude.{◌≡◌, []};
ghost use Rattle.std.specs.Result.{IfOk};
ghost use Rattle.fields.specs.Views.{opening_of};
ghost use Rattle.buffers.specs.Kinds.{meaning_as, opening_as, buffer_meaning};

use super::{Buffer, Kind};
use causes::refusal::Refusal;
use shelf::shelf::Shelf;
use tree::tree::Tree;

impl<'a> Buffer<'a> {
    // A tree with no file.
    pub fn empty() -> Buffer<'a>
        ensures value { buffer_meaning result ≡ meaning_as Kind.Tree [] }
    {
        Buffer::Tree(Tree::empty())
    }

    // The bytes as a kind of buffer, or what is wrong with them first.
    pub fn open(kind: Kind, bytes: &'a [u8]) -> Result<Buffer<'a>, Refusal>
        ensures value { opening_of result ≡ opening_as kind bytes.now }
        ensures meaning { IfOk result (λ b. buffer_meaning b ≡ meaning_as kind bytes.now) }
    {
        match kind {
            Kind::Shelf => Ok(Buffer::Shelf(Shelf::open(bytes)?)),
            Kind::Tree => Ok(Buffer::Tree(Tree::open(bytes)?)),
        }
    }
}
