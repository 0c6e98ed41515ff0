ghost use Rattle.std.specs.Prelude.{◌≡◌, true, false, [], map, length, is_some, is_ok, nat_lt};
ghost use Rattle.std.specs.Option.{option_map};
ghost use Rattle.ordered.specs.Held.{admitted};
ghost use Rattle.names.specs.Paths.{plain_path_bytes};
ghost use Rattle.rules.specs.Rows.{row_of as row_at, with_row, without_row};
ghost use Rattle.modules.specs.Rows.{row_names};
ghost use Rattle.modules.specs.Tables.{requirement_names};

use super::Requirements;
use crate::rows::Row;
use names::path::PlainPath;
use ordered::table::{NotInserted, Table};

impl Requirements {
    pub fn new() -> Requirements
        ensures { requirement_names result ≡ [] }
    {
        Requirements {
            table: Table::new(Row::blank()),
        }
    }

    pub fn as_slice(&self) -> &[Row]
        ensures { map row_names result.now ≡ requirement_names self.now }
    {
        self.table.as_slice()
    }

    // The row of a path.
    pub fn row(&self, path: &PlainPath) -> Option<&Row>
        ensures { option_map (λ x. row_names x.now) result ≡ row_at (plain_path_bytes path.now) (requirement_names self.now) }
    {
        self.table.lookup(path)
    }

    // One row more. Where it is refused nothing changes.
    pub fn add(&mut self, row: Row) -> Result<(), NotInserted>
        ensures value { result ≡ admitted (row_at (row_names row).path (requirement_names self.old)) (nat_lt (length (requirement_names self.old)) 256) }
        ensures after { is_ok result ≡ true → requirement_names self.new ≡ with_row (row_names row) (requirement_names self.old) }
        ensures refused { is_ok result ≡ false → self.new ≡ self.old }
    {
        self.table.insert::<PlainPath>(row)
    }

    // Takes the row of a path out. Where there is none nothing changes.
    pub fn remove(&mut self, path: &PlainPath) -> Option<Row>
        ensures value { option_map row_names result ≡ row_at (plain_path_bytes path.now) (requirement_names self.old) }
        ensures after { requirement_names self.new ≡ without_row (plain_path_bytes path.now) (requirement_names self.old) }
        ensures same { is_some result ≡ false → self.new ≡ self.old }
    {
        self.table.remove(path)
    }
}
