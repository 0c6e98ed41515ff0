// The calls that can be made over any source.
ghost use Rattle.runs.specs.Told.{call_of};
ghost use Rattle.runs.specs.Bounds.{in_bounds};

use super::Asked;
use crate::calls::{Call, Reply};
use modules::rows::Row;
use project::project::Project;
use source::questions::Source;
use walks::place::Place;

impl<'a, S: Source> Asked<S> for Call<'a> {
    ghost told = { call_of };

    ghost bounded = { in_bounds };

    fn make(&self, project: &mut Project<S>, sheet: &mut [Place], list: &mut [Row]) -> Reply {
        match self {
            Call::Load(text) => project.load(text).into(),
            Call::Raise(of) => project.raise(of).into(),
            Call::Drop(path) => project.drop_row(path).into(),
            Call::Exclude(of) => project.exclude(of).into(),
            Call::List => project.list(sheet, list).into(),
        }
    }
}
