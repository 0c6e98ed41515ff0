// Why a call is refused: the cause, the place it speaks of (of a manifest its line), how many layers down it arose, and the place of the sheet
// that was questioned. What is not named is zero.
ghost use Rattle.std.specs.Prelude.{◌≡◌, Some};
ghost use Rattle.causes.specs.Told.{refusal_of, cause_of, of_place};
ghost use Rattle.causes.specs.Wording.{refusal_line};

use crate::cause::Cause;
use std::fmt;

#[derive(Clone, Copy, PartialEq, Eq, Debug)]
pub struct Refusal {
    pub cause: Cause,
    pub place: usize,
    pub depth: u8,
    pub sheet_place: usize,
}

impl Refusal {
    // A refusal that names nothing but a place.
    pub fn at(cause: Cause, place: usize) -> Refusal
        ensures value { refusal_of result ≡ of_place (cause_of cause) place }
    {
        Refusal {
            cause,
            place,
            depth: 0,
            sheet_place: 0,
        }
    }
}

// A refusal that names nothing but its cause.
impl From<Cause> for Refusal {
    ghost from_gives = { λ c r. refusal_of r ≡ of_place (cause_of c) 0 };

    fn from(cause: Cause) -> Refusal {
        Refusal::at(cause, 0)
    }
}

// The cause by its number, the three places, and the cause in words: a line that a script and a person can read.
impl fmt::Display for Refusal {
    ghost output = { λ r. Some (refusal_line r) };

    fn fmt<W: fmt::Write>(&self, f: &mut fmt::Formatter<W>) -> fmt::Result {
        let number = self.cause.number();
        let place = self.place;
        let depth = self.depth;
        let sheet_place = self.sheet_place;
        let cause = self.cause;
        write!(f, "refused {number} {place} {depth} {sheet_place} {cause}")
    }
}
