// The rows that a place requires. Each one off the main path is written on the sheet, unless it is there, and an edge from the place to its own is
// noted.
ghost use Rattle.std.specs.Prelude.{◌≡◌, ◌+◌, ◌<◌, ◌≤◌, [], ◌∷◌, map, length, IfOk};
ghost use Rattle.rules.specs.Projects.{off_main};
ghost use Rattle.rules.specs.Walks.{module_versions, written, if_room, ended, done};
ghost use Rattle.names.specs.Paths.{path_bytes};
ghost use Rattle.modules.specs.Rows.{row_names};
ghost use Rattle.walks.specs.Sheets.{sheet_of, EndsAs};
ghost use Rattle.lowers.specs.Learned.{edges_in, Edged};

use crate::learned::Learned;
use causes::refusal::Refusal;
use modules::rows::Row;
use names::path::Path;
use walks::sheet::{Sheet, is_on};

// Writes a row that a place requires.
fn write_edge(
    sheet: &mut Sheet,
    main: &Path,
    at: usize,
    row: Row,
    learned: &mut Learned,
) -> Result<(), Refusal>
    requires room { length (edges_in learned.old) < 16384 }
    requires place { at < 256 }
    ensures value { EndsAs (if_room (ended done) (written at (off_main (path_bytes main.now) (row_names row ∷ [])) (sheet_of sheet.old))) result (sheet_of sheet.new) }
    ensures same_reference { sheet.new.items.ghost_name ≡ sheet.old.items.ghost_name }
    ensures marks { learned.new.marked ≡ learned.old.marked }
    ensures edges { IfOk result (λ _. Edged at (edges_in learned.old) (off_main (path_bytes main.now) (row_names row ∷ [])) (module_versions (sheet_of sheet.new)) (edges_in learned.new)) }
{
    if !is_on(&row, main) {
        let to = sheet.note(at, row)?;
        learned.add(at, to);
    }
    Ok(())
}

// Writes the rows that a place requires.
pub(crate) fn write_edges(
    sheet: &mut Sheet,
    main: &Path,
    at: usize,
    rows: &[Row],
    learned: &mut Learned,
) -> Result<(), Refusal>
    requires room { length (edges_in learned.old) + length rows.now ≤ 16384 }
    requires place { at < 256 }
    ensures value { EndsAs (if_room (ended done) (written at (off_main (path_bytes main.now) (map row_names rows.now)) (sheet_of sheet.old))) result (sheet_of sheet.new) }
    ensures same_reference { sheet.new.items.ghost_name ≡ sheet.old.items.ghost_name }
    ensures marks { learned.new.marked ≡ learned.old.marked }
    ensures edges { IfOk result (λ _. Edged at (edges_in learned.old) (off_main (path_bytes main.now) (map row_names rows.now)) (module_versions (sheet_of sheet.new)) (edges_in learned.new)) }
{
    for row in rows {
        write_edge(sheet, main, at, *row, learned)?;
    }
    Ok(())
}
