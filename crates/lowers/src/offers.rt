// The offers. Each path that has a ceiling offers the versions that the source lists at or under it, the highest first; they are written on the
// sheet path by path, from place 0. A fault of a listing stops it, and names no place of the sheet.
ghost use Rattle.std.specs.Prelude.{◌≡◌, true, [], ◌∷◌, map, if◌then◌else◌};
ghost use Rattle.std.specs.Ordering.{is_le};
ghost use Rattle.rules.specs.Paths.{is_path};
ghost use Rattle.rules.specs.Versions.{version_order};
ghost use Rattle.rules.specs.Names.{at as named};
ghost use Rattle.rules.specs.Walks.{written, if_room, ended, done};
ghost use Rattle.rules.specs.Lowers.{offer, offer_written, offers_written};
ghost use Rattle.names.specs.Paths.{path_bytes, plain_path_bytes};
ghost use Rattle.versions.specs.Values.{plain_version_bytes};
ghost use Rattle.modules.specs.Rows.{row_names};
ghost use Rattle.walks.specs.Sheets.{sheet_of, EndsAs};
ghost use Rattle.lowers.specs.Ceilings.{ceiling_rows};

use crate::ceilings::Ceilings;
use causes::refusal::Refusal;
use modules::rows::Row;
use names::path::{Path, PlainPath};
use source::questions::{ListingSource, Source};
use versions::version::PlainVersion;
use walks::sheet::Sheet;
use walks::walk::refused_at;

// Whether a version is at or under that of a ceiling.
fn is_under(version: &PlainVersion, ceiling: &Row) -> bool
    ensures value { result ≡ is_le (version_order (plain_version_bytes version.now) (row_names ceiling.now).version) }
{
    *version <= ceiling.version
}

// Writes a version of the path of a ceiling, unless it is over it.
fn write_version(sheet: &mut Sheet, ceiling: &Row, version: PlainVersion) -> Result<(), Refusal>
    ensures value { EndsAs (if_room (ended done) (written 0 (if is_le (version_order (plain_version_bytes version) (row_names ceiling.now).version) then named (row_names ceiling.now).path (plain_version_bytes version) ∷ [] else []) (sheet_of sheet.old))) result (sheet_of sheet.new) }
    ensures same_reference { sheet.new.items.ghost_name ≡ sheet.old.items.ghost_name }
{
    if is_under(&version, ceiling) {
        let row = Row {
            path: ceiling.path,
            version,
        };
        sheet.note(0, row)?;
    }
    Ok(())
}

// Writes the versions of the path of a ceiling that are not over it, the last first.
fn write_versions(
    sheet: &mut Sheet,
    ceiling: &Row,
    versions: &[PlainVersion],
) -> Result<(), Refusal>
    ensures value { EndsAs (if_room (ended done) (written 0 (offer (row_names ceiling.now) (map plain_version_bytes versions.now)) (sheet_of sheet.old))) result (sheet_of sheet.new) }
    ensures same_reference { sheet.new.items.ghost_name ≡ sheet.old.items.ghost_name }
{
    for version in versions.iter().rev() {
        write_version(sheet, ceiling, *version)?;
    }
    Ok(())
}

// The path that a well formed text is.
fn checked_path(path: &PlainPath) -> Path
    requires { is_path (plain_path_bytes path.now) ≡ true }
    ensures value { path_bytes result ≡ plain_path_bytes path.now }
{
    path.check().unwrap()
}

// Writes the offer of the path of a ceiling.
fn write_offer<S: ListingSource>(
    source: &mut S,
    sheet: &mut Sheet,
    ceiling: &Row,
) -> Result<(), Refusal>
    requires formed { is_path (row_names ceiling.now).path ≡ true }
    ensures same { S.Source.meaning source.new ≡ S.Source.meaning source.old }
    ensures inside { S.Source.inside source.new ≡ S.Source.inside source.old }
    ensures value { EndsAs (offer_written (ended done) (row_names ceiling.now) (sheet_of sheet.old) ((S.Source.meaning source.old).listing (row_names ceiling.now).path)) result (sheet_of sheet.new) }
    ensures same_reference { sheet.new.items.ghost_name ≡ sheet.old.items.ghost_name }
{
    let of = checked_path(&ceiling.path);
    let mut versions = [PlainVersion::blank(); 64];
    let found = source
        .versions(&of, &mut versions)
        .map_err(|fault| refused_at(0, fault))?;
    write_versions(sheet, ceiling, &versions[..found.count])
}

// Writes the offers of all paths that have a ceiling.
pub(crate) fn write_offers<S: ListingSource>(
    source: &mut S,
    ceilings: &Ceilings,
    sheet: &mut Sheet,
) -> Result<(), Refusal>
    ensures same { S.Source.meaning source.new ≡ S.Source.meaning source.old }
    ensures inside { S.Source.inside source.new ≡ S.Source.inside source.old }
    ensures value { EndsAs (offers_written (S.Source.meaning source.old) (ended done) (ceiling_rows ceilings.now) (sheet_of sheet.old)) result (sheet_of sheet.new) }
    ensures same_reference { sheet.new.items.ghost_name ≡ sheet.old.items.ghost_name }
{
    for ceiling in ceilings.as_slice() {
        write_offer(source, sheet, ceiling)?;
    }
    Ok(())
}
