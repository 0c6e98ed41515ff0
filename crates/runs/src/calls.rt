// Calls as values, and what is replied to them.
ghost use Rattle.std.specs.Prelude.{◌≡◌};
ghost use Rattle.runs.specs.Parts.{part_of};

use causes::refusal::Refusal;
use modules::rows::ModuleVersion;
use names::path::Path;
use walks::counts::Counts;

pub mod parts;

// A part of a text: the bytes from `start` to before `end`. So loads can read from one text that is lent to all of them.
#[derive(Clone, Copy)]
pub struct Part {
    pub start: usize,
    pub end: usize,
}

// What is asked of a project over any source. A load lends the text that it reads.
#[derive(Clone, Copy)]
pub enum Call<'a> {
    Load(&'a [u8]),
    Raise(ModuleVersion),
    Drop(Path),
    Exclude(ModuleVersion),
    List,
}

// What is asked of a project over a source that can list.
#[derive(Clone, Copy)]
pub enum ListingCall<'a> {
    Any(Call<'a>),
    Lower(ModuleVersion),
}

#[derive(Clone, Copy, PartialEq, Eq, Debug)]
pub enum Reply {
    Accepted,
    // accepted, with how many places and rows were written
    Counted(Counts),
    Refused(Refusal),
}

impl Part {
    // The bytes of this part; of one that does not lie in the text, none.
    pub fn of<'a>(&self, texts: &'a [u8]) -> &'a [u8]
        ensures value { result.now ≡ part_of texts.now self.now.start self.now.end }
    {
        let start = self.start;
        let end = self.end;
        if start <= end && end <= texts.len() {
            &texts[start..end]
        } else {
            &texts[0..0]
        }
    }
}
