// Opening a shelf.
ghost use Rattle.std.specs.Prelude.{◌≡◌, []};
ghost use Rattle.std.specs.Result.{IfOk};
ghost use Rattle.fields.specs.Views.{opening_of};
ghost use Rattle.shelf.specs.Grammar.{opening as opened_as};

use crate::order::Expected;
use crate::shelf::Shelf;
use causes::refusal::Refusal;
use fields::opening::open_buffer;

impl<'a> Shelf<'a> {
    // The shelf of an empty buffer.
    pub fn empty() -> Shelf<'a>
        ensures value { result.bytes.now ≡ [] }
    {
        Shelf { bytes: b"" }
    }

    // The shelf of a buffer, or what is wrong with it first.
    pub fn open(bytes: &'a [u8]) -> Result<Shelf<'a>, Refusal>
        ensures value { opening_of result ≡ opened_as bytes.now }
        ensures bytes { IfOk result (λ s. s.bytes.now ≡ bytes.now) }
    {
        open_buffer(Expected::Module, bytes)?;
        Ok(Shelf { bytes })
    }
}
