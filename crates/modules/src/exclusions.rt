// A table of at most 32 excluded module versions, ascending, each once.
// Kept: a wrapper of its own, and no generic one for the three tables, since its contracts speak in other words of the rules: module versions.
ghost use Rattle.std.specs.Prelude.{◌≡◌, ◌≤◌, true, length};
ghost use Rattle.ordered.specs.Ascents.{is_ascending};
ghost use Rattle.ordered.specs.Held.{held};
ghost use Rattle.rules.specs.Rows.{own};
ghost use Rattle.modules.specs.Rows.{row_order};

use crate::rows::Row;
use ordered::table::Table;

pub mod uses;

#[derive(Drop)]
pub struct Exclusions {
    table: Table<Row, 32>,
    ghost ascending: { is_ascending own row_order (held table) ≡ true },
    ghost fits: { length (held table) ≤ 32 },
}
