// The exclude layer: a source without up to 32 module versions. It has no manifest of them, leaves them out of the lists of others, and lists
// none of them. A fault from below comes up one deeper. A short slice is refused here, before all else.
ghost use Rattle.std.specs.Prelude.{◌≡◌, true, false, [], map, length, is_ok};
ghost use Rattle.rules.specs.Names.{has as is_among};
ghost use Rattle.rules.specs.Rows.{with_exclusion};
ghost use Rattle.rules.specs.Questions.{requirements_told, listing_told};
ghost use Rattle.names.specs.Paths.{path_bytes};
ghost use Rattle.versions.specs.Values.{plain_version_bytes};
ghost use Rattle.modules.specs.Rows.{row_names, names_of};
ghost use Rattle.modules.specs.Tables.{exclusion_names};
ghost use Rattle.source.specs.Answers.{answer_of};
ghost use Rattle.layers.specs.Excluded.{exclude_meaning, exclude_inside, exclusion_told};
ghost use Rattle.layers.specs.Laws.{excluding_lawful};

use crate::exclusions::{OfPath, exclude_row, is_excluded};
use crate::slices::keep;
use causes::cause::Cause;
use modules::exclusions::Exclusions;
use modules::rows::{ModuleVersion, Row};
use names::path::Path;
use source::fault::{Fault, Found};
use source::questions::{ListingSource, Source};
use source::slices::{check_room, refuse};
use versions::version::PlainVersion;

#[derive(Drop)]
pub struct Exclude<S> {
    below: S,
    exclusions: Exclusions,
}

impl<S> Exclude<S> {
    // A source of which nothing is excluded.
    pub fn new(below: S) -> Exclude<S>
        ensures below { result.below ≡ below }
        ensures value { exclusion_names result.exclusions ≡ [] }
    {
        Exclude {
            below,
            exclusions: Exclusions::new(),
        }
    }

    pub fn exclusions(&self) -> &[Row]
        ensures value { map row_names result.now ≡ exclusion_names self.now.exclusions }
    {
        self.exclusions.as_slice()
    }

    pub fn table(&self) -> &Exclusions
        ensures value { result.now ≡ self.now.exclusions }
    {
        &self.exclusions
    }

    pub fn excludes(&self, row: &Row) -> bool
        ensures value { result ≡ is_among (exclusion_names self.now.exclusions) (row_names row.now) }
    {
        is_excluded(&self.exclusions, row)
    }

    // One exclusion more. Where it is refused nothing changes.
    pub fn exclude(&mut self, row: Row) -> Result<(), Cause>
        ensures value { result ≡ exclusion_told (exclusion_names self.old.exclusions) (row_names row) }
        ensures after { is_ok result ≡ true → exclusion_names self.new.exclusions ≡ with_exclusion (row_names row) (exclusion_names self.old.exclusions) }
        ensures refused { is_ok result ≡ false → self.new.exclusions ≡ self.old.exclusions }
        ensures same { self.new.below ≡ self.old.below }
    {
        exclude_row(&mut self.exclusions, row)
    }

    // Other exclusions in the place of those that there are.
    pub fn replace_exclusions(&mut self, exclusions: Exclusions)
        ensures after { self.new.exclusions ≡ exclusions }
        ensures same { self.new.below ≡ self.old.below }
    {
        self.exclusions = exclusions;
    }
}

// Kept: the trait's clauses stand here again, since a method that promises more than its trait has to repeat them.
impl<S: Source> Source for Exclude<S> {
    ghost meaning = { exclude_meaning S.Source.meaning };

    ghost lawful = { λ e. excluding_lawful (exclusion_names e.exclusions) (S.Source.meaning e.below) (S.Source.lawful e.below) };

    ghost inside = { exclude_inside S.Source.meaning S.Source.inside };

    fn requirements(&mut self, of: &ModuleVersion, rows: &mut [Row]) -> Result<Found, Fault>
        ensures same { exclude_meaning S.Source.meaning self.new ≡ exclude_meaning S.Source.meaning self.old }
        ensures inside { exclude_inside S.Source.meaning S.Source.inside self.new ≡ exclude_inside S.Source.meaning S.Source.inside self.old }
        ensures value { answer_of result ≡ (requirements_told (exclude_meaning S.Source.meaning self.old) (names_of of.now) (length rows.old)).answer }
        ensures items { map row_names rows.new ≡ (requirements_told (exclude_meaning S.Source.meaning self.old) (names_of of.now) (length rows.old)).slice }
        ensures below { S.Source.meaning self.new.below ≡ S.Source.meaning self.old.below }
        ensures table { self.new.exclusions ≡ self.old.exclusions }
    {
        check_room(rows, Row::blank())?;
        if is_excluded(&self.exclusions, &of.row()) {
            return refuse(rows, Row::blank(), Cause::Missing);
        }
        let found = self.below.requirements(of, rows).map_err(Fault::deeper)?;
        let count = keep(rows, found.count, &self.exclusions, Row::blank());
        Ok(Found { count })
    }
}

impl<S: ListingSource> ListingSource for Exclude<S> {
    fn versions(&mut self, of: &Path, versions: &mut [PlainVersion]) -> Result<Found, Fault>
        ensures same { exclude_meaning S.Source.meaning self.new ≡ exclude_meaning S.Source.meaning self.old }
        ensures inside { exclude_inside S.Source.meaning S.Source.inside self.new ≡ exclude_inside S.Source.meaning S.Source.inside self.old }
        ensures value { answer_of result ≡ (listing_told (exclude_meaning S.Source.meaning self.old) (path_bytes of.now) (length versions.old)).answer }
        ensures items { map plain_version_bytes versions.new ≡ (listing_told (exclude_meaning S.Source.meaning self.old) (path_bytes of.now) (length versions.old)).slice }
        ensures below { S.Source.meaning self.new.below ≡ S.Source.meaning self.old.below }
        ensures table { self.new.exclusions ≡ self.old.exclusions }
    {
        check_room(versions, PlainVersion::blank())?;
        let found = self.below.versions(of, versions).map_err(Fault::deeper)?;
        let others = OfPath {
            path: of.plain(),
            exclusions: &self.exclusions,
        };
        let count = keep(versions, found.count, &others, PlainVersion::blank());
        Ok(Found { count })
    }
}
