// What a source answers: how many it found, or a fault, which says the cause, the place it speaks of (a line of a text, an offset of a
// buffer), and how many layers down it arose. A fault that comes up through a layer is one deeper, but no deeper than 255.
ghost use Rattle.std.specs.Prelude.{◌≡◌};
ghost use Rattle.rules.specs.Causes.{is_missing as tells_missing};
ghost use Rattle.rules.specs.Sources.{deeper as one_deeper};
ghost use Rattle.rules.specs.Calls.{refusal_at};
ghost use Rattle.causes.specs.Told.{cause_of, refusal_of};
ghost use Rattle.source.specs.Answers.{fault_of};

use causes::cause::Cause;
use causes::refusal::Refusal;

#[derive(Clone, Copy, PartialEq, Eq, Debug)]
pub struct Found {
    pub count: usize,
}

#[derive(Clone, Copy, PartialEq, Eq, Debug)]
pub struct Fault {
    pub cause: Cause,
    pub place: usize,
    pub depth: u8,
}

impl Fault {
    // The same fault, one layer up.
    pub fn deeper(self) -> Fault
        ensures value { fault_of result ≡ one_deeper (fault_of self) }
    {
        Fault {
            depth: self.depth.saturating_add(1),
            ..self
        }
    }

    // Whether it says that there is no such manifest.
    pub fn is_missing(self) -> bool
        ensures value { result ≡ tells_missing (cause_of self.cause) }
    {
        matches!(self.cause, Cause::Missing)
    }
}

// A fault that arises here and names no place.
impl From<Cause> for Fault {
    ghost from_gives = { λ c f. fault_of f ≡ record { cause = cause_of c; place = 0; depth = 0 } };

    fn from(cause: Cause) -> Fault {
        Fault {
            cause,
            place: 0,
            depth: 0,
        }
    }
}

// A fault outside of a walk: there is no sheet whose place it could name.
impl From<Fault> for Refusal {
    ghost from_gives = { λ f r. refusal_of r ≡ refusal_at 0 (fault_of f) };

    fn from(fault: Fault) -> Refusal {
        Refusal {
            cause: fault.cause,
            place: fault.place,
            depth: fault.depth,
            sheet_place: 0,
        }
    }
}

// A text that a source could not read. What is refused there is no place of a sheet.
impl From<Refusal> for Fault {
    ghost from_gives = { λ r f. fault_of f ≡ record { cause = cause_of r.cause; place = r.place; depth = r.depth } };

    fn from(refusal: Refusal) -> Fault {
        Fault {
            cause: refusal.cause,
            place: refusal.place,
            depth: refusal.depth,
        }
    }
}
