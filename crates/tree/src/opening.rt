// Opening a tree.
ghost use Rattle.std.specs.Prelude.{◌≡◌, []};
ghost use Rattle.std.specs.Result.{IfOk};
ghost use Rattle.fields.specs.Views.{opening_of};
ghost use Rattle.tree.specs.Grammar.{opening as opened_as};

use crate::order::Expected;
use crate::tree::Tree;
use causes::refusal::Refusal;
use fields::opening::open_buffer;

impl<'a> Tree<'a> {
    // The tree of an empty buffer.
    pub fn empty() -> Tree<'a>
        ensures value { result.bytes.now ≡ [] }
    {
        Tree { bytes: b"" }
    }

    // The tree of a buffer, or what is wrong with it first.
    pub fn open(bytes: &'a [u8]) -> Result<Tree<'a>, Refusal>
        ensures value { opening_of result ≡ opened_as bytes.now }
        ensures bytes { IfOk result (λ t. t.bytes.now ≡ bytes.now) }
    {
        open_buffer(Expected::Name, bytes)?;
        Ok(Tree { bytes })
    }
}
