// All six calls, over a source that can list.
ghost use Rattle.runs.specs.Told.{listing_call_of};
ghost use Rattle.runs.specs.Bounds.{listing_in_bounds};

use super::Asked;
use crate::calls::{ListingCall, Reply};
use modules::rows::Row;
use project::project::Project;
use source::questions::ListingSource;
use walks::place::Place;

impl<'a, S: ListingSource> Asked<S> for ListingCall<'a> {
    ghost told = { listing_call_of };

    ghost bounded = { listing_in_bounds };

    fn make(&self, project: &mut Project<S>, sheet: &mut [Place], list: &mut [Row]) -> Reply {
        match self {
            ListingCall::Any(call) => call.make(project, sheet, list),
            ListingCall::Lower(of) => project.lower(&of.path, &of.version, sheet, list).into(),
        }
    }
}
