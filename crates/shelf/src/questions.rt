// A shelf is a source, and can list: each question is one pass over its buffer.
ghost use Rattle.shelf.specs.Laws.{shelf_lawful};
ghost use Rattle.shelf.specs.Records.{shelf_meaning};

use crate::reading::copy_rows;
use crate::shelf::Shelf;
use bottoms::listed::answer_listing;
use bottoms::pairs::{find_pair, list_versions};
use causes::cause::Cause;
use modules::rows::{ModuleVersion, Row};
use names::path::Path;
use source::fault::{Fault, Found};
use source::questions::{ListingSource, Source};
use source::slices::{check_room, refuse};
use versions::version::PlainVersion;

impl<'a> Source for Shelf<'a> {
    ghost meaning = { λ s. shelf_meaning s.bytes.now };

    ghost lawful = { λ s. shelf_lawful s.bytes.now s.ok };

    fn requirements(&mut self, of: &ModuleVersion, rows: &mut [Row]) -> Result<Found, Fault> {
        check_room(rows, Row::blank())?;
        match find_pair::<Self>(self.bytes, of) {
            Some(head) => Ok(Found {
                count: copy_rows(head.after, rows),
            }),
            None => refuse(rows, Row::blank(), Cause::Missing),
        }
    }
}

impl<'a> ListingSource for Shelf<'a> {
    fn versions(&mut self, of: &Path, versions: &mut [PlainVersion]) -> Result<Found, Fault> {
        answer_listing(list_versions::<Self>(self.bytes, of.as_bytes()), versions)
    }
}
