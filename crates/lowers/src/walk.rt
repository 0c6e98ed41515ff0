// Lower's walk. The sheet is written anew: the main row and the offers; then the places from 1 on are questioned in order, each once. A row above its
// ceiling is not questioned, and a missing manifest is no fault: both are marked as bad. What a place requires is written behind the others.
ghost use Rattle.std.specs.Prelude.{◌≡◌, ◌+◌, ◌<◌, ◌≤◌, length, IfOk};
ghost use Rattle.std.specs.List.{slice_get};
ghost use Rattle.rules.specs.Walks.{walk as walked, questioned, ended, done};
ghost use Rattle.rules.specs.Lowers.{lower_ask};
ghost use Rattle.names.specs.Paths.{path_bytes};
ghost use Rattle.walks.specs.Sheets.{sheet_of, EndsAs};
ghost use Rattle.walks.specs.Views.{seen_by, Formed};
ghost use Rattle.lowers.specs.Ceilings.{ceiling_rows};
ghost use Rattle.lowers.specs.Learned.{Knows, Under};

use crate::ceilings::Ceilings;
use crate::edges::write_edges;
use crate::learned::Learned;
use causes::refusal::Refusal;
use modules::rows::Row;
use names::path::Path;
use source::questions::Source;
use walks::sheet::Sheet;
use walks::walk::refused_at;

// Questions a place whose row is not above its ceiling.
// Kept: what the walk works on is passed. In a struct each of the references would need a clause that it stays the same.
fn ask_place<S: Source>(
    source: &mut S,
    main: &Path,
    ceilings: &Ceilings,
    sheet: &mut Sheet,
    at: usize,
    learned: &mut Learned,
) -> Result<(), Refusal>
    requires place { (1 ≤ at) × (at < length (sheet_of sheet.old)) }
    requires formed { Formed (sheet_of sheet.old) }
    requires under { Under (ceiling_rows ceilings.now) at (sheet_of sheet.old) }
    requires knows { Knows (seen_by (path_bytes main.now) (S.Source.meaning source.old)) (ceiling_rows ceilings.now) (sheet_of sheet.old) learned.old at }
    ensures same { S.Source.meaning source.new ≡ S.Source.meaning source.old }
    ensures inside { S.Source.inside source.new ≡ S.Source.inside source.old }
    ensures value { EndsAs (questioned (lower_ask (seen_by (path_bytes main.now) (S.Source.meaning source.old)) (ceiling_rows ceilings.now)) (ended done) at (sheet_of sheet.old) (slice_get (sheet_of sheet.old) at)) result (sheet_of sheet.new) }
    ensures same_reference { sheet.new.items.ghost_name ≡ sheet.old.items.ghost_name }
    ensures learned { IfOk result (λ _. Knows (seen_by (path_bytes main.now) (S.Source.meaning source.old)) (ceiling_rows ceilings.now) (sheet_of sheet.new) learned.new (at + 1)) }
{
    let of = sheet.module_version(at).unwrap();
    let mut rows = [Row::blank(); 64];
    match source.requirements(&of, &mut rows) {
        Ok(found) => write_edges(sheet, main, at, &rows[..found.count], learned),
        Err(fault) if fault.is_missing() => {
            learned.mark(at);
            Ok(())
        }
        Err(fault) => Err(refused_at(at, fault)),
    }
}

// Questions a place, unless its row is above its ceiling.
fn question_under<S: Source>(
    source: &mut S,
    main: &Path,
    ceilings: &Ceilings,
    sheet: &mut Sheet,
    at: usize,
    learned: &mut Learned,
) -> Result<(), Refusal>
    requires place { (1 ≤ at) × (at < length (sheet_of sheet.old)) }
    requires formed { Formed (sheet_of sheet.old) }
    requires knows { Knows (seen_by (path_bytes main.now) (S.Source.meaning source.old)) (ceiling_rows ceilings.now) (sheet_of sheet.old) learned.old at }
    ensures same { S.Source.meaning source.new ≡ S.Source.meaning source.old }
    ensures inside { S.Source.inside source.new ≡ S.Source.inside source.old }
    ensures value { EndsAs (questioned (lower_ask (seen_by (path_bytes main.now) (S.Source.meaning source.old)) (ceiling_rows ceilings.now)) (ended done) at (sheet_of sheet.old) (slice_get (sheet_of sheet.old) at)) result (sheet_of sheet.new) }
    ensures same_reference { sheet.new.items.ghost_name ≡ sheet.old.items.ghost_name }
    ensures learned { IfOk result (λ _. Knows (seen_by (path_bytes main.now) (S.Source.meaning source.old)) (ceiling_rows ceilings.now) (sheet_of sheet.new) learned.new (at + 1)) }
{
    if ceilings.is_above(&sheet.as_slice()[at].row) {
        learned.mark(at);
        return Ok(());
    }
    ask_place(source, main, ceilings, sheet, at, learned)
}

// Questions the places from 1 on.
pub(crate) fn walk_under<S: Source>(
    source: &mut S,
    main: &Path,
    ceilings: &Ceilings,
    sheet: &mut Sheet,
    learned: &mut Learned,
) -> Result<(), Refusal>
    requires begun { 1 ≤ length (sheet_of sheet.old) }
    requires formed { Formed (sheet_of sheet.old) }
    requires knows { Knows (seen_by (path_bytes main.now) (S.Source.meaning source.old)) (ceiling_rows ceilings.now) (sheet_of sheet.old) learned.old 1 }
    ensures same { S.Source.meaning source.new ≡ S.Source.meaning source.old }
    ensures inside { S.Source.inside source.new ≡ S.Source.inside source.old }
    ensures value { EndsAs (walked (lower_ask (seen_by (path_bytes main.now) (S.Source.meaning source.old)) (ceiling_rows ceilings.now)) 255 1 (sheet_of sheet.old)) result (sheet_of sheet.new) }
    ensures same_reference { sheet.new.items.ghost_name ≡ sheet.old.items.ghost_name }
    ensures learned { IfOk result (λ _. Knows (seen_by (path_bytes main.now) (S.Source.meaning source.old)) (ceiling_rows ceilings.now) (sheet_of sheet.new) learned.new (length (sheet_of sheet.new))) }
{
    let mut at = 1;
    // Kept: the sheet grows while it is walked, so that no range counts its places.
    while at < sheet.len() {
        question_under(source, main, ceilings, sheet, at, learned)?;
        at += 1;
    }
    Ok(())
}
