// A table of at most 256 requirement rows, ascending by path, one a path.
// Kept: a wrapper of its own, and no generic one for the three tables, since its contracts speak in other words of the rules: rows by path.
ghost use Rattle.std.specs.Prelude.{◌≡◌, ◌≤◌, true, length};
ghost use Rattle.names.specs.Paths.{plain_path_order};
ghost use Rattle.ordered.specs.Ascents.{is_ascending};
ghost use Rattle.ordered.specs.Held.{held};
ghost use Rattle.modules.specs.Rows.{row_path};

use crate::rows::Row;
use ordered::table::Table;

pub mod raises;
pub mod uses;

#[derive(Drop)]
pub struct Requirements {
    table: Table<Row, 256>,
    ghost ascending: { is_ascending row_path plain_path_order (held table) ≡ true },
    ghost fits: { length (held table) ≤ 256 },
}
