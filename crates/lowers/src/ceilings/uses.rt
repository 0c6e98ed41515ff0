ghost use Rattle.std.specs.Prelude.{◌≡◌, ◌+◌, ◌≤◌, ◌&&◌, true, map, length};
ghost use Rattle.std.specs.List.{AllByRecursion};
ghost use Rattle.std.specs.Ordering.{is_lt, is_eq};
ghost use Rattle.rules.specs.Paths.{is_path, path_order};
ghost use Rattle.rules.specs.Versions.{version_order};
ghost use Rattle.rules.specs.Names.{same_path};
ghost use Rattle.rules.specs.Rows.{AscendingRows};
ghost use Rattle.rules.specs.Lowers.{some as some_of, ceiling_of as ceiling_over, is_above as tests_above};
ghost use Rattle.names.specs.Paths.{path_bytes};
ghost use Rattle.versions.specs.Values.{version_bytes};
ghost use Rattle.modules.specs.Rows.{row_names};
ghost use Rattle.lowers.specs.Ceilings.{ceiling_rows};

use super::Ceilings;
use arrayvec::ArrayVec;
use modules::rows::Row;
use names::path::Path;
use versions::version::Version;
use walks::sheet::is_on;

// Whether a row is on a path, and above a version there.
fn stands_above(row: &Row, path: &Path, version: &Version) -> bool
    ensures value { result ≡ (same_path (row_names row.now) (path_bytes path.now) && is_lt (version_order (version_bytes version.now) (row_names row.now).version)) }
{
    is_on(row, path) && version.plain() < row.version
}

// Whether one of the rows is on the path, above the version.
pub(crate) fn can_lower(rows: &[Row], path: &Path, version: &Version) -> bool
    ensures value { result ≡ some_of (λ x. same_path x (path_bytes path.now) && is_lt (version_order (version_bytes version.now) x.version)) (map row_names rows.now) }
{
    rows.iter().any(|row| stands_above(row, path, version))
}

// The ceiling over a row of the list.
fn ceiling_of(row: &Row, path: &Path, version: &Version) -> Row
    ensures value { row_names result ≡ ceiling_over (path_bytes path.now) (version_bytes version.now) (row_names row.now) }
{
    if is_on(row, path) {
        return Row {
            path: row.path,
            version: version.plain(),
        };
    }
    *row
}

// Whether a row is on the path of a ceiling, and above it.
fn is_over(ceiling: &Row, row: &Row) -> bool
    ensures value { result ≡ (is_eq (path_order (row_names ceiling.now).path (row_names row.now).path) && is_lt (version_order (row_names ceiling.now).version (row_names row.now).version)) }
{
    ceiling.path == row.path && ceiling.version < row.version
}

// The ceilings over rows.
fn ceilings_over(rows: &[Row], path: &Path, version: &Version) -> ArrayVec<Row, 256>
    requires { length rows.now ≤ 256 }
    ensures value { map row_names result.items ≡ map (ceiling_over (path_bytes path.now) (version_bytes version.now)) (map row_names rows.now) }
{
    let mut ceilings = ArrayVec::new();
    for row in rows {
        ceilings.push(ceiling_of(row, path, version));
    }
    ceilings
}

impl Ceilings {
    // The ceilings over the rows of the list, which are a table.
    pub(crate) fn of(rows: &[Row], path: &Path, version: &Version) -> Ceilings
        requires few { length rows.now ≤ 256 }
        requires formed { AllByRecursion (λ c. is_path c.path ≡ true) (map row_names rows.now) }
        requires ascending { AscendingRows (map row_names rows.now) }
        ensures value { ceiling_rows result ≡ map (ceiling_over (path_bytes path.now) (version_bytes version.now)) (map row_names rows.now) }
    {
        let rows = ceilings_over(rows, path, version);
        Ceilings { rows }
    }

    pub(crate) fn as_slice(&self) -> &[Row]
        ensures value { map row_names result.now ≡ ceiling_rows self.now }
    {
        self.rows.as_slice()
    }

    // How many rows the list has that they are made from, the main row among them.
    pub(crate) fn listed(&self) -> usize
        ensures value { result ≡ length (ceiling_rows self.now) + 1 }
    {
        self.rows.len() + 1
    }

    // Whether a row is above its ceiling.
    pub(crate) fn is_above(&self, row: &Row) -> bool
        ensures value { result ≡ tests_above (ceiling_rows self.now) (row_names row.now) }
    {
        self.as_slice().iter().any(|ceiling| is_over(ceiling, row))
    }
}
