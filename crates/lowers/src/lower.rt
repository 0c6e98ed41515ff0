// Lower: the list is made, and from it the ceilings; then the sheet is written anew under them, and the kept rows are told. It is refused as the list
// is; then if the path is not on the list behind the main row, or not above the version there, with the slices as the list left them; then if a listing
// or a place brings a fault, or there is no room for one more place. The list slice holds the list that it started from. Behind what is written both
// slices are blank.
ghost use Rattle.std.specs.Prelude.{◌≡◌, ◌≤◌, true, map, length, IfOk, ◌≢◌};
ghost use Rattle.std.specs.List.{AllByRecursion};
ghost use Rattle.rules.specs.Texts.{every};
ghost use Rattle.rules.specs.Paths.{is_path};
ghost use Rattle.rules.specs.Names.{is_module_version};
ghost use Rattle.rules.specs.Rows.{AscendingRows};
ghost use Rattle.names.specs.Paths.{path_bytes};
ghost use Rattle.versions.specs.Values.{version_bytes};
ghost use Rattle.modules.specs.Rows.{row_names, names_of};
ghost use Rattle.modules.specs.Tables.{requirement_names};
ghost use Rattle.walks.specs.Places.{place_of};
ghost use Rattle.walks.specs.Views.{seen_by};
ghost use Rattle.walks.specs.Listed.{lent, slices_of};
ghost use Rattle.lowers.specs.Ceilings.{ceiling_rows};
ghost use Rattle.lowers.specs.Lowered.{reply_of, kept_of, told_of, told_under, told_from, lowers_from, LowerStands};

use crate::ceilings::Ceilings;
use crate::ceilings::uses::can_lower;
use crate::lowered::Lowered;
use crate::under::lower_under;
use causes::cause::Cause;
use causes::refusal::Refusal;
use modules::rows::{ModuleVersion, Row};
use names::path::Path;
use source::questions::{ListingSource, Source};
use versions::version::Version;
use walks::filling::Filling;
use walks::list::list as make_list;
use walks::place::Place;

// Lowers under ceilings, and leaves blanks behind what is written.
fn lower_ceilings<S: ListingSource>(
    source: &mut S,
    main: &Path,
    ceilings: &Ceilings,
    sheet: &mut [Place],
) -> Result<Lowered, Refusal>
    requires room { 256 ≤ length sheet.old }
    requires apart { AllByRecursion (λ c. c.path ≢ path_bytes main.now) (ceiling_rows ceilings.now) }
    ensures same { S.Source.meaning source.new ≡ S.Source.meaning source.old }
    ensures inside { S.Source.inside source.new ≡ S.Source.inside source.old }
    ensures value { told_of result sheet.new ≡ told_under (seen_by (path_bytes main.now) (S.Source.meaning source.old)) (length sheet.old) (ceiling_rows ceilings.now) }
    ensures formed { IfOk result (λ l. every is_module_version (requirement_names l.kept) ≡ true) }
{
    let mut places = Filling {
        items: sheet,
        count: 0,
    };
    places.begin(main);
    let lowered = lower_under(source, main, ceilings, &mut places);
    places.blank_behind(Place::blank());
    lowered
}

// Lowers from the rows of a list behind its main row.
fn lower_rows<S: ListingSource>(
    source: &mut S,
    main: &Path,
    rows: &[Row],
    path: &Path,
    version: &Version,
    sheet: &mut [Place],
) -> Result<Lowered, Refusal>
    requires room { (256 ≤ length sheet.old) × (length rows.now ≤ 255) }
    requires formed { AllByRecursion (λ c. is_path c.path ≡ true) (map row_names rows.now) }
    requires ascending { AscendingRows (map row_names rows.now) }
    requires apart { AllByRecursion (λ c. c.path ≢ path_bytes main.now) (map row_names rows.now) }
    ensures same { S.Source.meaning source.new ≡ S.Source.meaning source.old }
    ensures inside { S.Source.inside source.new ≡ S.Source.inside source.old }
    ensures value { told_of result sheet.new ≡ told_from (seen_by (path_bytes main.now) (S.Source.meaning source.old)) (path_bytes path.now) (version_bytes version.now) (map row_names rows.now) (map place_of sheet.old) }
    ensures formed { IfOk result (λ l. every is_module_version (requirement_names l.kept) ≡ true) }
{
    if !can_lower(rows, path, version) {
        return Err(Refusal::from(Cause::NothingToChange));
    }
    let ceilings = Ceilings::of(rows, path, version);
    lower_ceilings(source, main, &ceilings, sheet)
}

// The lower of a path to a version, for a main module and the rows that it requires.
pub fn lower<S: ListingSource>(
    source: &mut S,
    main: &Path,
    start: &[ModuleVersion],
    path: &Path,
    version: &Version,
    sheet: &mut [Place],
    list: &mut [Row],
) -> Result<Lowered, Refusal>
    ensures same { S.Source.meaning source.new ≡ S.Source.meaning source.old }
    ensures inside { S.Source.inside source.new ≡ S.Source.inside source.old }
    ensures value { reply_of result ≡ (lowers_from (seen_by (path_bytes main.now) (S.Source.meaning source.old)) (map names_of start.now) (path_bytes path.now) (version_bytes version.now) (lent sheet.old list.old)).reply }
    ensures kept { kept_of result ≡ (lowers_from (seen_by (path_bytes main.now) (S.Source.meaning source.old)) (map names_of start.now) (path_bytes path.now) (version_bytes version.now) (lent sheet.old list.old)).kept }
    ensures formed { IfOk result (λ l. every is_module_version (requirement_names l.kept) ≡ true) }
    ensures after { slices_of sheet.new list.new ≡ (lowers_from (seen_by (path_bytes main.now) (S.Source.meaning source.old)) (map names_of start.now) (path_bytes path.now) (version_bytes version.now) (lent sheet.old list.old)).slices }
{
    let counts = make_list(source, main, start, sheet, list)?;
    lower_rows(source, main, &list[1..counts.rows], path, version, sheet)
}

// A project's lower is this one, over the exclude layer of its state and from its rows but the exclusions.
pub fn lowers_stand()
    ensures { LowerStands }
{}
