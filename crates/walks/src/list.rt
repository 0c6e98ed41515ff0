// A list: the walk into one lent slice, and, if every place was questioned, the list of its sheet into another. Both slices need 256 places; with
// fewer it is refused before all else. Refused at a place, or where there is no room for one more, the sheet is as far as it was walked, and
// there is no list. Behind what is written both slices are blank.
ghost use Rattle.std.specs.Prelude.{◌≡◌, [], map, length, take};
ghost use Rattle.rules.specs.Calls.{replied, if_done};
ghost use Rattle.rules.specs.Lists.{list_of};
ghost use Rattle.rules.specs.Slices.{long_enough};
ghost use Rattle.rules.specs.Walks.{first_sheet};
ghost use Rattle.names.specs.Paths.{path_bytes};
ghost use Rattle.modules.specs.Rows.{row_names, names_of};
ghost use Rattle.walks.specs.Fillings.{items_of};
ghost use Rattle.walks.specs.Sheets.{sheet_of};
ghost use Rattle.walks.specs.Views.{bare, seen_by, walk_from};
ghost use Rattle.walks.specs.Listed.{lent, reply_of, slices_of, lists_from, WalkRight, ListRight};

use crate::counts::Counts;
use crate::filling::Filling;
use crate::place::Place;
use crate::sheet::Sheet;
use crate::walk::walk;
use causes::cause::Cause;
use causes::refusal::Refusal;
use modules::rows::{ModuleVersion, Row};
use names::path::Path;
use source::questions::Source;
use source::slices::blank_from;

// Whether both slices have 256 places.
fn are_long(sheet: &[Place], list: &[Row]) -> bool
    ensures value { result ≡ long_enough (lent sheet.now list.now) }
{
    sheet.len() >= 256 && list.len() >= 256
}

// Walks, and if every place was questioned writes the list.
fn walk_and_list<S: Source>(
    source: &mut S,
    main: &Path,
    start: &[ModuleVersion],
    sheet: &mut Sheet,
    rows: &mut Filling<Row>,
) -> Result<Counts, Refusal>
    requires begun { sheet_of sheet.old ≡ first_sheet (bare (path_bytes main.now)) }
    requires empty { items_of rows.old ≡ [] }
    ensures same { S.Source.meaning source.new ≡ S.Source.meaning source.old }
    ensures inside { S.Source.inside source.new ≡ S.Source.inside source.old }
    ensures value { let walk = walk_from (seen_by (path_bytes main.now) (S.Source.meaning source.old)) (map names_of start.now) in reply_of result ≡ replied walk.end (length walk.sheet) (length (list_of (bare (path_bytes main.now)) walk.sheet)) }
    ensures sheet { sheet_of sheet.new ≡ take 256 (walk_from (seen_by (path_bytes main.now) (S.Source.meaning source.old)) (map names_of start.now)).sheet }
    ensures rows { let walk = walk_from (seen_by (path_bytes main.now) (S.Source.meaning source.old)) (map names_of start.now) in map row_names (items_of rows.new) ≡ if_done walk.end (list_of (bare (path_bytes main.now)) walk.sheet) [] }
    ensures same_sheet { sheet.new.items.ghost_name ≡ sheet.old.items.ghost_name }
    ensures same_rows { rows.new.items.ghost_name ≡ rows.old.items.ghost_name }
{
    walk(source, main, start, sheet)?;
    rows.write_list(main, sheet.as_slice());
    Ok(Counts {
        places: sheet.len(),
        rows: rows.len(),
    })
}

// The list of what a main module reaches, from the rows that it requires.
pub fn list<S: Source>(
    source: &mut S,
    main: &Path,
    start: &[ModuleVersion],
    sheet: &mut [Place],
    list: &mut [Row],
) -> Result<Counts, Refusal>
    ensures same { S.Source.meaning source.new ≡ S.Source.meaning source.old }
    ensures inside { S.Source.inside source.new ≡ S.Source.inside source.old }
    ensures value { reply_of result ≡ (lists_from (seen_by (path_bytes main.now) (S.Source.meaning source.old)) (map names_of start.now) (lent sheet.old list.old)).reply }
    ensures after { slices_of sheet.new list.new ≡ (lists_from (seen_by (path_bytes main.now) (S.Source.meaning source.old)) (map names_of start.now) (lent sheet.old list.old)).slices }
{
    if !are_long(sheet, list) {
        blank_from(sheet, 0, Place::blank());
        blank_from(list, 0, Row::blank());
        return Err(Refusal::from(Cause::SliceTooShort));
    }
    let mut places = Filling::empty(sheet);
    places.begin(main);
    let mut rows = Filling::empty(list);
    let counts = walk_and_list(source, main, start, &mut places, &mut rows);
    places.blank_behind(Place::blank());
    rows.blank_behind(Row::blank());
    counts
}

// A project's walk and list are these, over the exclude layer of its state and from its rows but the exclusions.
pub fn walks_stand()
    ensures { WalkRight × ListRight }
{}
