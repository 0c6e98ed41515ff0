// A buffer is a source, and can list.
ghost use Rattle.buffers.specs.Kinds.{buffer_meaning, buffer_lawful};

use super::Buffer;
use modules::rows::{ModuleVersion, Row};
use names::path::Path;
use source::fault::{Fault, Found};
use source::questions::{ListingSource, Source};
use versions::version::PlainVersion;

impl<'a> Source for Buffer<'a> {
    ghost meaning = { buffer_meaning };

    ghost lawful = { buffer_lawful };

    fn requirements(&mut self, of: &ModuleVersion, rows: &mut [Row]) -> Result<Found, Fault> {
        match self {
            Buffer::Shelf(shelf) => shelf.requirements(of, rows),
            Buffer::Tree(tree) => tree.requirements(of, rows),
        }
    }
}

impl<'a> ListingSource for Buffer<'a> {
    fn versions(&mut self, of: &Path, versions: &mut [PlainVersion]) -> Result<Found, Fault> {
        match self {
            Buffer::Shelf(shelf) => shelf.versions(of, versions),
            Buffer::Tree(tree) => tree.versions(of, versions),
        }
    }
}
