// A source that is lent is a source: so a pile of layers can be made over sources that its owner keeps.
use crate::fault::{Fault, Found};
use crate::questions::{ListingSource, Source};
use modules::rows::{ModuleVersion, Row};
use names::path::Path;
use versions::version::PlainVersion;

impl<S: Source> Source for &mut S {
    ghost meaning = { λ s. S.Source.meaning s.now };

    ghost lawful = { λ s. S.Source.lawful s.now };

    ghost inside = { λ s. S.Source.inside s.now };

    fn requirements(&mut self, of: &ModuleVersion, rows: &mut [Row]) -> Result<Found, Fault> {
        (**self).requirements(of, rows)
    }
}

impl<S: ListingSource> ListingSource for &mut S {
    fn versions(&mut self, of: &Path, versions: &mut [PlainVersion]) -> Result<Found, Fault> {
        (**self).versions(of, versions)
    }
}
