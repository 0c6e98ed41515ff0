// A tree is a source, and can list: each question is one pass over its buffer.
ghost use Rattle.tree.specs.Files.{tree_meaning};
ghost use Rattle.tree.specs.Laws.{tree_lawful};

use crate::reading::read_manifest;
use crate::tree::Tree;
use bottoms::listed::answer_listing;
use bottoms::pairs::{find_pair, list_versions};
use causes::cause::Cause;
use modules::rows::{ModuleVersion, Row};
use names::path::Path;
use source::fault::{Fault, Found};
use source::questions::{ListingSource, Source};
use source::slices::{check_room, refuse};
use versions::version::PlainVersion;

impl<'a> Source for Tree<'a> {
    ghost meaning = { λ s. tree_meaning s.bytes.now };

    ghost lawful = { λ s. tree_lawful s.bytes.now };

    fn requirements(&mut self, of: &ModuleVersion, rows: &mut [Row]) -> Result<Found, Fault> {
        check_room(rows, Row::blank())?;
        match find_pair::<Self>(self.bytes, of) {
            Some(file) => read_manifest(file.second, rows),
            None => refuse(rows, Row::blank(), Cause::Missing),
        }
    }
}

impl<'a> ListingSource for Tree<'a> {
    fn versions(&mut self, of: &Path, versions: &mut [PlainVersion]) -> Result<Found, Fault> {
        answer_listing(list_versions::<Self>(self.bytes, of.as_bytes()), versions)
    }
}
