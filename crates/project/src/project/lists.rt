// The list of a project: what its main module reaches through the exclude layer, at the highest version of each path.
ghost use Rattle.std.specs.Prelude.{◌≡◌};
ghost use Rattle.rules.specs.Calls.{does, list as list_call};
ghost use Rattle.walks.specs.Listed.{lent};
ghost use Rattle.project.specs.Projects.{state_of, pile_of, counted_as};
ghost use Rattle.project.specs.Promises.{GivenLeast, RefusedDeserved, SheetShown};

use super::Project;
use causes::refusal::Refusal;
use modules::rows::Row;
use source::questions::Source;
use walks::counts::Counts;
use walks::list::list as list_from;
use walks::place::Place;

impl<S: Source> Project<S> {
    // Walks into the sheet, and writes the list. It changes nothing of the project, nor what the pile means.
    pub fn list(&mut self, sheet: &mut [Place], list: &mut [Row]) -> Result<Counts, Refusal>
        ensures value { counted_as result (state_of self.new) sheet.new list.new ≡ does (pile_of S.Source.meaning self.old) (state_of self.old) (list_call (lent sheet.old list.old)) }
        ensures same { pile_of S.Source.meaning self.new ≡ pile_of S.Source.meaning self.old }
        ensures least { GivenLeast (pile_of S.Source.meaning self.old) (state_of self.old) (lent sheet.old list.old) (counted_as result (state_of self.new) sheet.new list.new) }
        ensures deserved { RefusedDeserved (pile_of S.Source.meaning self.old) (state_of self.old) (lent sheet.old list.old) (counted_as result (state_of self.new) sheet.new list.new) }
        ensures shown { SheetShown (pile_of S.Source.meaning self.old) (state_of self.old) (lent sheet.old list.old) (counted_as result (state_of self.new) sheet.new list.new) }
    {
        let start = self.main.start(self.layer.table());
        list_from(
            &mut self.layer,
            self.main.path(),
            start.as_slice(),
            sheet,
            list,
        )
    }
}
