// What a table of exclusions leaves out: the module versions that it holds. It takes one more if it has not got it and there is room.
ghost use Rattle.std.specs.Prelude.{◌≡◌, true, false, not, is_ok};
ghost use Rattle.rules.specs.Names.{has as is_among, at};
ghost use Rattle.rules.specs.Rows.{with_exclusion};
ghost use Rattle.names.specs.Paths.{plain_path_bytes};
ghost use Rattle.versions.specs.Values.{plain_version_bytes};
ghost use Rattle.modules.specs.Rows.{row_names};
ghost use Rattle.modules.specs.Tables.{exclusion_names};
ghost use Rattle.layers.specs.Excluded.{refusal_cause, exclusion_told};

use crate::slices::Test;
use causes::cause::Cause;
use modules::exclusions::Exclusions;
use modules::rows::Row;
use names::path::PlainPath;
use ordered::table::NotInserted;
use versions::version::PlainVersion;

// Whether a row is one of the exclusions.
pub fn is_excluded(exclusions: &Exclusions, row: &Row) -> bool
    ensures value { result ≡ is_among (exclusion_names exclusions.now) (row_names row.now) }
{
    exclusions.has(row)
}

// Why a table takes no item more.
// Kept: no From, since neither type is of this crate.
pub fn cause_of(refused: NotInserted) -> Cause
    ensures value { result ≡ refusal_cause refused }
{
    match refused {
        NotInserted::Present => Cause::NothingToChange,
        NotInserted::Full => Cause::TableFull,
    }
}

// One exclusion more. Where it is refused nothing changes.
pub fn exclude_row(exclusions: &mut Exclusions, row: Row) -> Result<(), Cause>
    ensures value { result ≡ exclusion_told (exclusion_names exclusions.old) (row_names row) }
    ensures after { is_ok result ≡ true → exclusion_names exclusions.new ≡ with_exclusion (row_names row) (exclusion_names exclusions.old) }
    ensures refused { is_ok result ≡ false → exclusions.new ≡ exclusions.old }
{
    exclusions.add(row).map_err(cause_of)
}

// Passes the rows that are no exclusions.
impl Test<Row> for Exclusions {
    ghost passes = { λ s r. not (is_among (exclusion_names s) (row_names r)) };

    fn test(&self, item: &Row) -> bool {
        !is_excluded(self, item)
    }
}

// Passes the versions of a path that are not excluded.
#[derive(Clone, Copy)]
pub(crate) struct OfPath<'a> {
    pub path: PlainPath,
    pub exclusions: &'a Exclusions,
}

impl Test<PlainVersion> for OfPath<'_> {
    ghost passes = { λ s v. not (is_among (exclusion_names s.exclusions.now) (at (plain_path_bytes s.path) (plain_version_bytes v))) };

    fn test(&self, item: &PlainVersion) -> bool {
        let row = Row {
            path: self.path,
            version: *item,
        };
        !is_excluded(self.exclusions, &row)
    }
}
