// What the methods of a project answer, as replies.
ghost use Rattle.std.specs.Prelude.{◌≡◌};
ghost use Rattle.rules.specs.Projects.{State};
ghost use Rattle.project.specs.States.{changed};
ghost use Rattle.walks.specs.Listed.{reply_of};
ghost use Rattle.runs.specs.Told.{reply_told};

use crate::calls::Reply;
use causes::refusal::Refusal;
use walks::counts::Counts;

// The answer of a call that is lent no slices.
impl From<Result<(), Refusal>> for Reply {
    ghost from_gives = { λ answer r. (s : State) → reply_told r ≡ (changed answer s).reply };

    fn from(answer: Result<(), Refusal>) -> Reply {
        match answer {
            Ok(()) => Reply::Accepted,
            Err(refusal) => Reply::Refused(refusal),
        }
    }
}

// The answer of a call that wrote a sheet.
impl From<Result<Counts, Refusal>> for Reply {
    ghost from_gives = { λ answer r. reply_told r ≡ reply_of answer };

    fn from(answer: Result<Counts, Refusal>) -> Reply {
        match answer {
            Ok(counts) => Reply::Counted(counts),
            Err(refusal) => Reply::Refused(refusal),
        }
    }
}
