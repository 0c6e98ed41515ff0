// The rows of the list: the main row, and then of each other path on the sheet the highest version, ascending by path.
ghost use Rattle.std.specs.Prelude.{◌≡◌, ◌<◌, ◌≤◌, [], map, length};
ghost use Rattle.rules.specs.Rows.{with_row, table};
ghost use Rattle.rules.specs.Lists.{list_of};
ghost use Rattle.rules.specs.Projects.{off_main};
ghost use Rattle.rules.specs.Walks.{module_versions};
ghost use Rattle.names.specs.Paths.{path_bytes};
ghost use Rattle.modules.specs.Rows.{row_names};
ghost use Rattle.walks.specs.Fillings.{items_of};
ghost use Rattle.walks.specs.Places.{place_of};
ghost use Rattle.walks.specs.Views.{bare, entered_off};

use crate::filling::Filling;
use crate::place::Place;
use crate::sheet::is_on;
use crate::start::main_row;
use modules::rows::Row;
use names::path::Path;
use ordered::slices::search;

impl<'a> Filling<'a, Row> {
    // Enters a row where its path stands. Where the path is there already, the higher version stays.
    fn enter(&mut self, row: Row)
        requires room { length (items_of self.old) < 256 }
        ensures after { map row_names (items_of self.new) ≡ with_row (row_names row) (map row_names (items_of self.old)) }
        ensures same_reference { self.new.items.ghost_name ≡ self.old.items.ghost_name }
    {
        match search(self.as_slice(), &row.path) {
            Ok(at) => {
                let there = self.as_slice()[at];
                if row.version >= there.version {
                    self.replace(at, row);
                }
            }
            Err(at) => self.insert(at, row),
        }
    }

    // Enters a row that is not on the main path.
    fn enter_off(&mut self, main: &Path, row: Row)
        requires room { length (items_of self.old) < 256 }
        ensures after { map row_names (items_of self.new) ≡ entered_off (path_bytes main.now) (row_names row) (map row_names (items_of self.old)) }
        ensures same_reference { self.new.items.ghost_name ≡ self.old.items.ghost_name }
    {
        if !is_on(&row, main) {
            self.enter(row);
        }
    }

    // Enters the rows of a sheet that are not on the main path.
    fn enter_all(&mut self, main: &Path, sheet: &[Place])
        requires room { length (table (off_main (path_bytes main.now) (module_versions (map place_of sheet.now)))) < 256 }
        requires empty { items_of self.old ≡ [] }
        ensures after { map row_names (items_of self.new) ≡ table (off_main (path_bytes main.now) (module_versions (map place_of sheet.now))) }
        ensures same_reference { self.new.items.ghost_name ≡ self.old.items.ghost_name }
    {
        for place in sheet {
            self.enter_off(main, place.row);
        }
    }

    // Writes the list of a sheet.
    pub(crate) fn write_list(&mut self, main: &Path, sheet: &[Place])
        requires room { length (list_of (bare (path_bytes main.now)) (map place_of sheet.now)) ≤ 256 }
        requires empty { items_of self.old ≡ [] }
        ensures after { map row_names (items_of self.new) ≡ list_of (bare (path_bytes main.now)) (map place_of sheet.now) }
        ensures same_reference { self.new.items.ghost_name ≡ self.old.items.ghost_name }
    {
        self.enter_all(main, sheet);
        self.insert(0, main_row(main));
    }
}
