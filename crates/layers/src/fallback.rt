// The fallback layer: two sources. Where the first has no such manifest, and only there, the second is asked. It lists the versions of both, if
// both list and these are at most 64. A fault from below comes up one deeper. A short slice is refused here, before all else.
ghost use Rattle.std.specs.Prelude.{◌≡◌, map, length};
ghost use Rattle.rules.specs.Questions.{requirements_told, listing_told};
ghost use Rattle.names.specs.Paths.{path_bytes};
ghost use Rattle.versions.specs.Values.{plain_version_bytes};
ghost use Rattle.modules.specs.Rows.{row_names, names_of};
ghost use Rattle.source.specs.Answers.{answer_of};
ghost use Rattle.layers.specs.Falling.{fallback_meaning, fallback_inside};
ghost use Rattle.layers.specs.Laws.{falling_back_lawful};

use crate::joining::{lay_joined, listing_of};
use modules::rows::{ModuleVersion, Row};
use names::path::Path;
use source::fault::{Fault, Found};
use source::questions::{ListingSource, Source};
use source::slices::check_room;
use versions::version::PlainVersion;

#[derive(Drop)]
pub struct Fallback<F, S> {
    first: F,
    second: S,
}

impl<F, S> Fallback<F, S> {
    pub fn new(first: F, second: S) -> Fallback<F, S>
        ensures first { result.first ≡ first }
        ensures second { result.second ≡ second }
    {
        Fallback { first, second }
    }
}

// Kept: the trait's clauses stand here again, since a method that promises more than its trait has to repeat them.
impl<F: Source, S: Source> Source for Fallback<F, S> {
    ghost meaning = { fallback_meaning F.Source.meaning S.Source.meaning };

    ghost lawful = { λ e. falling_back_lawful (F.Source.meaning e.first) (S.Source.meaning e.second) (F.Source.lawful e.first) (S.Source.lawful e.second) };

    ghost inside = { fallback_inside F.Source.inside S.Source.inside };

    fn requirements(&mut self, of: &ModuleVersion, rows: &mut [Row]) -> Result<Found, Fault>
        ensures same { fallback_meaning F.Source.meaning S.Source.meaning self.new ≡ fallback_meaning F.Source.meaning S.Source.meaning self.old }
        ensures inside { fallback_inside F.Source.inside S.Source.inside self.new ≡ fallback_inside F.Source.inside S.Source.inside self.old }
        ensures value { answer_of result ≡ (requirements_told (fallback_meaning F.Source.meaning S.Source.meaning self.old) (names_of of.now) (length rows.old)).answer }
        ensures items { map row_names rows.new ≡ (requirements_told (fallback_meaning F.Source.meaning S.Source.meaning self.old) (names_of of.now) (length rows.old)).slice }
        ensures first { F.Source.meaning self.new.first ≡ F.Source.meaning self.old.first }
        ensures second { S.Source.meaning self.new.second ≡ S.Source.meaning self.old.second }
    {
        check_room(rows, Row::blank())?;
        match self.first.requirements(of, rows) {
            Err(fault) if fault.is_missing() => {
                self.second.requirements(of, rows).map_err(Fault::deeper)
            }
            answer => answer.map_err(Fault::deeper),
        }
    }
}

impl<F: ListingSource, S: ListingSource> ListingSource for Fallback<F, S> {
    fn versions(&mut self, of: &Path, versions: &mut [PlainVersion]) -> Result<Found, Fault>
        ensures same { fallback_meaning F.Source.meaning S.Source.meaning self.new ≡ fallback_meaning F.Source.meaning S.Source.meaning self.old }
        ensures inside { fallback_inside F.Source.inside S.Source.inside self.new ≡ fallback_inside F.Source.inside S.Source.inside self.old }
        ensures value { answer_of result ≡ (listing_told (fallback_meaning F.Source.meaning S.Source.meaning self.old) (path_bytes of.now) (length versions.old)).answer }
        ensures items { map plain_version_bytes versions.new ≡ (listing_told (fallback_meaning F.Source.meaning S.Source.meaning self.old) (path_bytes of.now) (length versions.old)).slice }
        ensures first { F.Source.meaning self.new.first ≡ F.Source.meaning self.old.first }
        ensures second { S.Source.meaning self.new.second ≡ S.Source.meaning self.old.second }
    {
        check_room(versions, PlainVersion::blank())?;
        let found = self.first.versions(of, versions).map_err(Fault::deeper)?;
        let listing = listing_of(&versions[..found.count]);
        let others = self.second.versions(of, versions).map_err(Fault::deeper)?;
        lay_joined(&listing, versions, others.count)
    }
}
