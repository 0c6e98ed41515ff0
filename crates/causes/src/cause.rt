// The fourteen causes, each with its number. A script reads the number, a person the words; both are fixed.
ghost use Rattle.std.specs.Prelude.{◌≡◌, Some};
ghost use Rattle.rules.specs.Causes.{number as number_of};
ghost use Rattle.causes.specs.Told.{cause_of};
ghost use Rattle.causes.specs.Wording.{wording};

use std::fmt;

#[derive(Clone, Copy, PartialEq, Eq, Debug)]
pub enum Cause {
    // of a text or a buffer
    TooLong = 1,
    BadByte = 2,
    WrongShape = 3,
    BadPath = 4,
    BadVersion = 5,
    // a second module line, or none
    ModuleLine = 6,
    RowTooMany = 7,
    // of a source; missing: it has no such manifest
    Missing = 8,
    DamagedBuffer = 9,
    TooManyToList = 10,
    // of a call: it was lent too little
    SliceTooShort = 11,
    // a walk needs a 257th place
    TooManyModuleVersions = 12,
    TableFull = 13,
    NothingToChange = 14,
}

impl Cause {
    // The number that the cause is told by, 1 to 14.
    pub fn number(self) -> u8
        ensures value { result ≡ number_of (cause_of self) }
    {
        self as u8
    }

    // What the cause is, in a few words of English.
    pub fn words(self) -> &'static str
        ensures value { result.now ≡ wording self }
    {
        match self {
            Cause::TooLong => "a text or buffer too long",
            Cause::BadByte => "a byte that no manifest may hold",
            Cause::WrongShape => "a line of a wrong shape",
            Cause::BadPath => "a bad path",
            Cause::BadVersion => "a bad version",
            Cause::ModuleLine => "a second module line, or none",
            Cause::RowTooMany => "a row too many",
            Cause::Missing => "no such manifest",
            Cause::DamagedBuffer => "a damaged buffer",
            Cause::TooManyToList => "too many versions to list",
            Cause::SliceTooShort => "a slice too short",
            Cause::TooManyModuleVersions => "too many module versions",
            Cause::TableFull => "a full table",
            Cause::NothingToChange => "nothing to change",
        }
    }
}

impl fmt::Display for Cause {
    ghost output = { λ c. Some (wording c) };

    fn fmt<W: fmt::Write>(&self, f: &mut fmt::Formatter<W>) -> fmt::Result {
        fmt::Display::fmt(&self.words(), f)
    }
}
