// A requirement raised: the one row of its path set to a higher version, or added if the path has none.
ghost use Rattle.std.specs.Prelude.{◌≡◌, ◌<◌, true, false, map, length, set, is_ok, slice_index_or, slice_set};
ghost use Rattle.std.specs.Option.{option_map};
ghost use Rattle.std.specs.Ordering.{is_le};
ghost use Rattle.ordered.specs.Held.{held, fitting};
ghost use Rattle.rules.specs.Rows.{with_row, table};
ghost use Rattle.rules.specs.Versions.{version_order};
ghost use Rattle.modules.specs.Raised.{raise_told};
ghost use Rattle.modules.specs.Rows.{row_names};
ghost use Rattle.modules.specs.Tables.{requirement_names};

use super::Requirements;
use crate::rows::Row;
use names::path::PlainPath;
use ordered::slices::search;
use ordered::table::Table;
use versions::version::PlainVersion;

// Why a row was not raised: it is that high already, or it is new and there is no room.
#[derive(Clone, Copy, PartialEq, Eq, Debug)]
pub enum NotRaised {
    NotHigher,
    NoRoom,
}

impl Row {
    // Another version of the same path.
    fn lift(&mut self, version: PlainVersion)
        ensures after { self.new ≡ record { path = self.old.path; version = version } }
    {
        self.version = version;
    }

    // Whether its version is that of another row, or below it.
    fn is_upto(&self, other: &Row) -> bool
        ensures value { result ≡ is_le (version_order (row_names self.now).version (row_names other.now).version) }
    {
        self.version <= other.version
    }
}

impl Requirements {
    // Sets the row at a place, which is of the same path: it is changed in a copy of the rows, and the table then written whole.
    fn lift(&mut self, at: usize, row: Row)
        requires { (at < length (held self.old.table)) × ((slice_index_or (held self.old.table) at row).path ≡ row.path) }
        ensures after { held self.new.table ≡ slice_set (held self.old.table) at row }
    {
        let mut rows = self.table.items();
        rows[at].lift(row.version);
        self.table = self.table.with_items(rows);
    }

    // Raises the row of a path, or adds it. Where it is refused nothing changes.
    pub fn raise(&mut self, row: Row) -> Result<(), NotRaised>
        ensures value { result ≡ raise_told (requirement_names self.old) (row_names row) }
        ensures after { is_ok result ≡ true → requirement_names self.new ≡ with_row (row_names row) (requirement_names self.old) }
        ensures refused { is_ok result ≡ false → self.new ≡ self.old }
    {
        let rows = self.table.as_slice();
        let Ok(at) = search(rows, &row.path) else {
            return self.add(row).map_err(|_| NotRaised::NoRoom);
        };
        if row.is_upto(&rows[at]) {
            return Err(NotRaised::NotHigher);
        }
        self.lift(at, row);
        Ok(())
    }

    // The table of these, of each path the highest, unless that is more than 256.
    pub fn of(rows: &[Row]) -> Option<Requirements>
        ensures value { option_map requirement_names result ≡ fitting 256 (table (map row_names rows.now)) }
    {
        let mut all = Requirements::new();
        for row in rows {
            if all.raise(*row) == Err(NotRaised::NoRoom) {
                return None;
            }
        }
        Some(all)
    }
}
