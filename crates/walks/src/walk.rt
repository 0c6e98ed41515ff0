// The walk. The places from 1 on are questioned in order, each once, and what a place requires is written behind the others. It stops at the
// first fault, with the number of the place, or where a 257th place is needed.
ghost use Rattle.std.specs.Prelude.{◌≡◌, ◌<◌, ◌≤◌, map, length};
ghost use Rattle.rules.specs.Calls.{refusal_at};
ghost use Rattle.rules.specs.Projects.{remaining};
ghost use Rattle.rules.specs.Walks.{walk as walked, first_sheet};
ghost use Rattle.causes.specs.Told.{refusal_of};
ghost use Rattle.names.specs.Paths.{path_bytes};
ghost use Rattle.modules.specs.Rows.{names_of};
ghost use Rattle.source.specs.Answers.{fault_of};
ghost use Rattle.walks.specs.Sheets.{sheet_of, EndsAs};
ghost use Rattle.walks.specs.Views.{bare, seen_by, Formed, asked_at, walk_from};

use crate::sheet::Sheet;
use causes::refusal::Refusal;
use modules::rows::{ModuleVersion, Row};
use names::path::Path;
use source::fault::Fault;
use source::questions::Source;

// The refusal that a fault of a place brings.
pub fn refused_at(at: usize, fault: Fault) -> Refusal
    ensures value { refusal_of result ≡ refusal_at at (fault_of fault) }
{
    Refusal {
        cause: fault.cause,
        place: fault.place,
        depth: fault.depth,
        sheet_place: at,
    }
}

// Questions a place, and writes what it requires.
// Kept: the source, the main path and the sheet are passed. In a struct each would need a clause that its reference stays the same. That the rows are
// formed is asked, and no fact of the type, since a row is written before it is known to be well formed.
fn question<S: Source>(
    source: &mut S,
    main: &Path,
    sheet: &mut Sheet,
    at: usize,
) -> Result<(), Refusal>
    requires place { (1 ≤ at) × (at < length (sheet_of sheet.old)) }
    requires formed { Formed (sheet_of sheet.old) }
    ensures same { S.Source.meaning source.new ≡ S.Source.meaning source.old }
    ensures inside { S.Source.inside source.new ≡ S.Source.inside source.old }
    ensures value { EndsAs (asked_at (seen_by (path_bytes main.now) (S.Source.meaning source.old)) at (sheet_of sheet.old)) result (sheet_of sheet.new) }
    ensures same_reference { sheet.new.items.ghost_name ≡ sheet.old.items.ghost_name }
{
    let of = sheet.module_version(at).unwrap();
    let mut rows = [Row::blank(); 64];
    let found = source
        .requirements(&of, &mut rows)
        .map_err(|fault| refused_at(at, fault))?;
    sheet.write_all(main, at, &rows[..found.count])
}

// Questions the places from 1 on.
fn walk_on<S: Source>(source: &mut S, main: &Path, sheet: &mut Sheet) -> Result<(), Refusal>
    requires begun { 1 ≤ length (sheet_of sheet.old) }
    requires formed { Formed (sheet_of sheet.old) }
    ensures same { S.Source.meaning source.new ≡ S.Source.meaning source.old }
    ensures inside { S.Source.inside source.new ≡ S.Source.inside source.old }
    ensures value { EndsAs (walked (remaining (seen_by (path_bytes main.now) (S.Source.meaning source.old))) 255 1 (sheet_of sheet.old)) result (sheet_of sheet.new) }
    ensures same_reference { sheet.new.items.ghost_name ≡ sheet.old.items.ghost_name }
{
    let mut at = 1;
    // Kept: the sheet grows while it is walked, so that no range counts its places.
    while at < sheet.len() {
        question(source, main, sheet, at)?;
        at += 1;
    }
    Ok(())
}

// Walks from the main row and the rows that it starts from.
pub(crate) fn walk<S: Source>(
    source: &mut S,
    main: &Path,
    start: &[ModuleVersion],
    sheet: &mut Sheet,
) -> Result<(), Refusal>
    requires begun { sheet_of sheet.old ≡ first_sheet (bare (path_bytes main.now)) }
    ensures same { S.Source.meaning source.new ≡ S.Source.meaning source.old }
    ensures inside { S.Source.inside source.new ≡ S.Source.inside source.old }
    ensures value { EndsAs (walk_from (seen_by (path_bytes main.now) (S.Source.meaning source.old)) (map names_of start.now)) result (sheet_of sheet.new) }
    ensures same_reference { sheet.new.items.ghost_name ≡ sheet.old.items.ghost_name }
{
    sheet.write_all(main, 0, start)?;
    walk_on(source, main, sheet)
}
