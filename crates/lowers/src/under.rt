// Lower under ceilings: the sheet is written anew, the places are questioned, the marks spread, and the rows are kept.
ghost use Rattle.std.specs.Prelude.{◌≡◌, ◌+◌, true, length, IfOk, ◌≢◌};
ghost use Rattle.std.specs.List.{AllByRecursion};
ghost use Rattle.rules.specs.Texts.{every};
ghost use Rattle.rules.specs.Names.{is_module_version};
ghost use Rattle.rules.specs.Walks.{first_sheet};
ghost use Rattle.rules.specs.Lowers.{kept_rows};
ghost use Rattle.names.specs.Paths.{path_bytes};
ghost use Rattle.modules.specs.Tables.{requirement_names};
ghost use Rattle.walks.specs.Sheets.{sheet_of, EndsAs};
ghost use Rattle.walks.specs.Views.{bare, seen_by};
ghost use Rattle.lowers.specs.Ceilings.{ceiling_rows};
ghost use Rattle.lowers.specs.Lowered.{lower_walk_from};

use crate::ceilings::Ceilings;
use crate::keep::keep_rows;
use crate::learned::Learned;
use crate::lowered::Lowered;
use crate::offers::write_offers;
use crate::walk::walk_under;
use causes::refusal::Refusal;
use names::path::Path;
use source::questions::{ListingSource, Source};
use walks::counts::Counts;
use walks::sheet::Sheet;

// Lowers under ceilings, none of them on the main path.
pub(crate) fn lower_under<S: ListingSource>(
    source: &mut S,
    main: &Path,
    ceilings: &Ceilings,
    sheet: &mut Sheet,
) -> Result<Lowered, Refusal>
    requires begun { sheet_of sheet.old ≡ first_sheet (bare (path_bytes main.now)) }
    requires apart { AllByRecursion (λ c. c.path ≢ path_bytes main.now) (ceiling_rows ceilings.now) }
    ensures same { S.Source.meaning source.new ≡ S.Source.meaning source.old }
    ensures inside { S.Source.inside source.new ≡ S.Source.inside source.old }
    ensures value { EndsAs (lower_walk_from (seen_by (path_bytes main.now) (S.Source.meaning source.old)) (ceiling_rows ceilings.now)) result (sheet_of sheet.new) }
    ensures same_reference { sheet.new.items.ghost_name ≡ sheet.old.items.ghost_name }
    ensures places { IfOk result (λ l. l.counts.places ≡ length (sheet_of sheet.new)) }
    ensures rows { IfOk result (λ l. l.counts.rows ≡ length (ceiling_rows ceilings.now) + 1) }
    ensures kept { IfOk result (λ l. requirement_names l.kept ≡ kept_rows (seen_by (path_bytes main.now) (S.Source.meaning source.old)) (ceiling_rows ceilings.now)) }
    ensures formed { IfOk result (λ l. every is_module_version (requirement_names l.kept) ≡ true) }
{
    write_offers(source, ceilings, sheet)?;
    let offered = sheet.len();
    let mut learned = Learned::new();
    walk_under(source, main, ceilings, sheet, &mut learned)?;
    learned.spread();
    let kept = keep_rows(&learned, &sheet.as_slice()[1..offered]);
    Ok(Lowered {
        counts: Counts {
            places: sheet.len(),
            rows: ceilings.listed(),
        },
        kept,
    })
}
