// The kept rows: of each path the first of its offers that is not marked, which is the highest, since the highest are offered first.
ghost use Rattle.std.specs.Prelude.{◌≡◌, ◌<◌, [], map, length, if◌then◌else◌};
ghost use Rattle.rules.specs.Paths.{path_order};
ghost use Rattle.rules.specs.Tables.{keep as keeps_old, entered, entered_all};
ghost use Rattle.rules.specs.Rows.{path_of};
ghost use Rattle.rules.specs.Walks.{module_versions};
ghost use Rattle.modules.specs.Rows.{row_names};
ghost use Rattle.modules.specs.Tables.{requirement_names};
ghost use Rattle.walks.specs.Places.{place_of};
ghost use Rattle.lowers.specs.Learned.{is_marked as mark_at};
ghost use Rattle.lowers.specs.Spreads.{spared};

use crate::learned::Learned;
use modules::requirements::Requirements;
use modules::rows::Row;
use walks::place::Place;

// Keeps a row, unless its path has one.
fn keep_row(rows: &mut Requirements, row: Row)
    requires { length (requirement_names rows.old) < 256 }
    ensures after { requirement_names rows.new ≡ entered path_of path_order keeps_old (row_names row) (requirement_names rows.old) }
{
    let _ = rows.add(row);
}

// Keeps the row of a place, unless the place is marked.
fn keep_place(rows: &mut Requirements, learned: &Learned, at: usize, row: Row)
    requires { (at < 256) × (length (requirement_names rows.old) < 256) }
    ensures after { requirement_names rows.new ≡ (if mark_at learned.now at then requirement_names rows.old else entered path_of path_order keeps_old (row_names row) (requirement_names rows.old)) }
{
    if learned.is_marked(at) {
        return;
    }
    keep_row(rows, row);
}

// Keeps rows of the offers, which stand on the sheet behind the main row.
pub(crate) fn keep_rows(learned: &Learned, offers: &[Place]) -> Requirements
    requires { length offers.now < 256 }
    ensures value { requirement_names result ≡ entered_all path_of path_order keeps_old [] (spared (mark_at learned.now) 1 (module_versions (map place_of offers.now))) }
{
    let mut rows = Requirements::new();
    for (i, place) in offers.iter().enumerate() {
        keep_place(&mut rows, learned, i + 1, place.row);
    }
    rows
}
