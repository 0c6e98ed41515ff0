// The sheet of a walk: at most 256 places in a lent slice. A row is written behind the places that there are, unless it is on the main path or
// on the sheet already.
ghost use Rattle.std.specs.Prelude.{◌≡◌, ◌<◌, ◌≤◌, [], ◌∷◌, map, length, IfOk, Some};
ghost use Rattle.std.specs.Option.{option_map};
ghost use Rattle.std.specs.List.{slice_get};
ghost use Rattle.rules.specs.Names.{same, same_path};
ghost use Rattle.rules.specs.Projects.{off_main};
ghost use Rattle.rules.specs.Walks.{module_versions, noted, written, if_room, ended, done, first_sheet};
ghost use Rattle.names.specs.Paths.{path_bytes};
ghost use Rattle.modules.specs.Rows.{row_names, names_of};
ghost use Rattle.walks.specs.Places.{place_of, place_in};
ghost use Rattle.walks.specs.Sheets.{sheet_of, EndsAs};
ghost use Rattle.walks.specs.Views.{bare, module_version_at};

use crate::as_row::AsRow;
use crate::filling::Filling;
use crate::place::Place;
use crate::start::main_row;
use causes::cause::Cause;
use causes::refusal::Refusal;
use modules::rows::{ModuleVersion, Row};
use names::path::Path;

// The most places that a sheet has.
const MOST: usize = 256;

// Whether two rows are the same module version.
fn is_same(row: &Row, other: &Row) -> bool
    ensures value { result ≡ same (row_names row.now) (row_names other.now) }
{
    row == other
}

// Whether a row is on a path.
pub fn is_on(row: &Row, path: &Path) -> bool
    ensures value { result ≡ same_path (row_names row.now) (path_bytes path.now) }
{
    row.path == path.plain()
}

// The place of a row on the sheet, if it is there.
pub fn find_row(sheet: &[Place], row: &Row) -> Option<usize>
    ensures value { result ≡ place_in (module_versions (map place_of sheet.now)) (row_names row.now) }
{
    sheet.iter().position(|place| is_same(row, &place.row))
}

pub type Sheet<'a> = Filling<'a, Place>;

impl<'a> Filling<'a, Place> {
    // The main row alone, whatever was written before.
    pub fn begin(&mut self, main: &Path)
        ensures value { sheet_of self.new ≡ first_sheet (bare (path_bytes main.now)) }
        ensures same_reference { self.new.items.ghost_name ≡ self.old.items.ghost_name }
    {
        self.count = 0;
        self.push(Place {
            row: main_row(main),
            from: 0,
        });
    }

    // The place at which a row stands: where it is on the sheet already, or else behind the others.
    pub fn note(&mut self, from: usize, row: Row) -> Result<usize, Refusal>
        ensures value { EndsAs (if_room (ended done) (noted from (row_names row) (sheet_of self.old))) result (sheet_of self.new) }
        ensures place { IfOk result (λ at. slice_get (module_versions (sheet_of self.new)) at ≡ Some (row_names row)) }
        ensures same_reference { self.new.items.ghost_name ≡ self.old.items.ghost_name }
    {
        if let Some(at) = find_row(self.as_slice(), &row) {
            return Ok(at);
        }
        let at = self.len();
        if at == MOST {
            return Err(Refusal::from(Cause::TooManyModuleVersions));
        }
        self.push(Place { row, from });
        Ok(at)
    }

    // Notes a row, unless it is on the main path.
    pub fn write(&mut self, main: &Path, from: usize, row: Row) -> Result<(), Refusal>
        ensures value { EndsAs (if_room (ended done) (written from (off_main (path_bytes main.now) (row_names row ∷ [])) (sheet_of self.old))) result (sheet_of self.new) }
        ensures same_reference { self.new.items.ghost_name ≡ self.old.items.ghost_name }
    {
        if !is_on(&row, main) {
            self.note(from, row)?;
        }
        Ok(())
    }

    // Writes one row after another.
    pub fn write_all<T: AsRow>(
        &mut self,
        main: &Path,
        from: usize,
        rows: &[T],
    ) -> Result<(), Refusal>
        ensures value { EndsAs (if_room (ended done) (written from (off_main (path_bytes main.now) (map T.AsRow.names rows.now)) (sheet_of self.old))) result (sheet_of self.new) }
        ensures same_reference { self.new.items.ghost_name ≡ self.old.items.ghost_name }
    {
        for row in rows {
            self.write(main, from, row.as_row())?;
        }
        Ok(())
    }

    // The module version at a place, if there is one.
    pub fn module_version(&self, at: usize) -> Option<ModuleVersion>
        ensures value { option_map names_of result ≡ module_version_at (sheet_of self.now) at }
    {
        self.as_slice().get(at)?.row.check()
    }
}
