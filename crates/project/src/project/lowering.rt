// Lower: the highest versions that can stand together once a path is at or under a version. It first makes the list; the rows that it keeps become
// the whole requirement table, and the list slice holds the list from before.
ghost use Rattle.std.specs.Prelude.{◌≡◌};
ghost use Rattle.rules.specs.Calls.{does, lower as lower_call};
ghost use Rattle.names.specs.Paths.{path_bytes};
ghost use Rattle.versions.specs.Values.{version_bytes};
ghost use Rattle.walks.specs.Listed.{lent};
ghost use Rattle.project.specs.Projects.{state_of, pile_of, counted_as};
ghost use Rattle.project.specs.Promises.{RowsKept, LoweredWhen, LoweringShown};

use super::Project;
use causes::refusal::Refusal;
use lowers::lower::lower as lower_from;
use modules::rows::Row;
use names::path::Path;
use source::questions::ListingSource;
use versions::version::Version;
use walks::counts::Counts;
use walks::place::Place;

impl<S: ListingSource> Project<S> {
    // Lowers a path to a version, and answers how many places the sheet and how many rows the old list has.
    pub fn lower(
        &mut self,
        path: &Path,
        version: &Version,
        sheet: &mut [Place],
        list: &mut [Row],
    ) -> Result<Counts, Refusal>
        ensures value { counted_as result (state_of self.new) sheet.new list.new ≡ does (pile_of S.Source.meaning self.old) (state_of self.old) (lower_call (path_bytes path.now) (version_bytes version.now) (lent sheet.old list.old)) }
        ensures same { pile_of S.Source.meaning self.new ≡ pile_of S.Source.meaning self.old }
        ensures kept { RowsKept (pile_of S.Source.meaning self.old) (state_of self.old) (lent sheet.old list.old) (path_bytes path.now) (version_bytes version.now) (counted_as result (state_of self.new) sheet.new list.new) }
        ensures accepted { LoweredWhen (pile_of S.Source.meaning self.old) (state_of self.old) (lent sheet.old list.old) (path_bytes path.now) (version_bytes version.now) (counted_as result (state_of self.new) sheet.new list.new) }
        ensures shown { LoweringShown (pile_of S.Source.meaning self.old) (state_of self.old) (lent sheet.old list.old) (path_bytes path.now) (version_bytes version.now) (counted_as result (state_of self.new) sheet.new list.new) }
    {
        let start = self.main.start(self.layer.table());
        let lowered = lower_from(
            &mut self.layer,
            self.main.path(),
            start.as_slice(),
            path,
            version,
            sheet,
            list,
        )?;
        self.main.take_rows(lowered.kept);
        Ok(lowered.counts)
    }
}
