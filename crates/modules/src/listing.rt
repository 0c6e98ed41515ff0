// A table of at most 64 versions of one path, ascending, each once.
// Kept: a wrapper of its own, and no generic one for the three tables, since its contracts speak in other words of the rules: versions.
ghost use Rattle.std.specs.Prelude.{◌≡◌, ◌≤◌, true, length};
ghost use Rattle.ordered.specs.Ascents.{is_ascending};
ghost use Rattle.ordered.specs.Held.{held};
ghost use Rattle.rules.specs.Rows.{own};
ghost use Rattle.versions.specs.Values.{plain_version_order};

use ordered::table::Table;
use versions::version::PlainVersion;

pub mod uses;

#[derive(Drop)]
pub struct Listing {
    table: Table<PlainVersion, 64>,
    ghost ascending: { is_ascending own plain_version_order (held table) ≡ true },
    ghost fits: { length (held table) ≤ 64 },
}
