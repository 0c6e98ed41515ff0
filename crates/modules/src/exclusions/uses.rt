ghost use Rattle.std.specs.Prelude.{◌≡◌, true, false, [], map, length, is_some, is_ok, nat_lt};
ghost use Rattle.std.specs.Option.{option_map};
ghost use Rattle.ordered.specs.Held.{admitted, fitting};
ghost use Rattle.rules.specs.Names.{module_order};
ghost use Rattle.rules.specs.Rows.{own, with_exclusion, exclusion_table};
ghost use Rattle.rules.specs.Tables.{lookup as at_key};
ghost use Rattle.modules.specs.Rows.{row_names};
ghost use Rattle.modules.specs.Tables.{exclusion_names};

use super::Exclusions;
use crate::rows::Row;
use ordered::table::{NotInserted, Table};

impl Exclusions {
    pub fn new() -> Exclusions
        ensures { exclusion_names result ≡ [] }
    {
        Exclusions {
            table: Table::new(Row::blank()),
        }
    }

    // The table of these, each once, unless that is more than 32.
    pub fn of(rows: &[Row]) -> Option<Exclusions>
        ensures { option_map exclusion_names result ≡ fitting 32 (exclusion_table (map row_names rows.now)) }
    {
        let table = Exclusions::new().table.join::<Row>(rows)?;
        Some(Exclusions { table })
    }

    pub fn as_slice(&self) -> &[Row]
        ensures { map row_names result.now ≡ exclusion_names self.now }
    {
        self.table.as_slice()
    }

    pub fn has(&self, row: &Row) -> bool
        ensures { result ≡ is_some (at_key own module_order (row_names row.now) (exclusion_names self.now)) }
    {
        self.table.lookup(row).is_some()
    }

    // One exclusion more. Where it is refused nothing changes.
    pub fn add(&mut self, row: Row) -> Result<(), NotInserted>
        ensures value { result ≡ admitted (at_key own module_order (row_names row) (exclusion_names self.old)) (nat_lt (length (exclusion_names self.old)) 32) }
        ensures after { is_ok result ≡ true → exclusion_names self.new ≡ with_exclusion (row_names row) (exclusion_names self.old) }
        ensures refused { is_ok result ≡ false → self.new ≡ self.old }
    {
        self.table.insert::<Row>(row)
    }
}
