// Which fields of a shelf may come next, and what is wrong with one that may not stand there.
ghost use Rattle.std.specs.Prelude.{◌≡◌};
ghost use Rattle.fields.specs.Views.{next_of};
ghost use Rattle.shelf.specs.Grammar.{path_then, version_then, row_then, follow as following, may_end};

use causes::cause::Cause;
use fields::opening::Next;
use names::path::checks::is_path_text;
use versions::texts::is_version;

// How many rows a record may have.
const MOST: u8 = 64;

// The numbers say how many more rows the record has room for.
// Kept: an enum of its own beside that of trees, since the cases are others; what opening does with them is one function over `Next`.
#[derive(Clone, Copy)]
pub enum Expected {
    // a first record, or the end
    Module,
    // the version of a record
    Version,
    // a row, another record, or the end
    Row(u8),
    // the version of a row
    RowVersion(u8),
}

fn path_then(path: &[u8], then: Expected) -> Result<Expected, Cause>
    ensures value { next_of result ≡ path_then path.now then }
{
    if is_path_text(path) {
        Ok(then)
    } else {
        Err(Cause::BadPath)
    }
}

fn version_then(version: &[u8], then: Expected) -> Result<Expected, Cause>
    ensures value { next_of result ≡ version_then version.now then }
{
    if is_version(version) {
        Ok(then)
    } else {
        Err(Cause::BadVersion)
    }
}

// A row more, if the record has room for it.
fn row_then(left: u8, path: &[u8]) -> Result<Expected, Cause>
    ensures value { next_of result ≡ row_then left path.now }
{
    if left == 0 {
        return Err(Cause::RowTooMany);
    }
    path_then(path, Expected::RowVersion(left - 1))
}

impl Next for Expected {
    ghost follow = { following };

    ghost ends = { may_end };

    fn behind(self, tag: u8, body: &[u8]) -> Result<Expected, Cause> {
        match (self, tag) {
            (Expected::Module, b'M') => path_then(body, Expected::Version),
            (Expected::Version, b'V') => version_then(body, Expected::Row(MOST)),
            (Expected::Row(_), b'M') => path_then(body, Expected::Version),
            (Expected::Row(left), b'R') => row_then(left, body),
            (Expected::RowVersion(left), b'W') => version_then(body, Expected::Row(left)),
            _ => Err(Cause::DamagedBuffer),
        }
    }

    fn may_end(self) -> bool {
        matches!(self, Expected::Module | Expected::Row(_))
    }
}
