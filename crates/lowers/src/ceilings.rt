// The ceilings. Each path of the list, after the main row, may stand no higher than there, and the path that is lowered no higher than the version
// that it is lowered to. Other paths have no ceiling.
ghost use Rattle.std.specs.Prelude.{◌≡◌, true, map};
ghost use Rattle.rules.specs.Texts.{every};
ghost use Rattle.rules.specs.Paths.{is_path, path_order};
ghost use Rattle.rules.specs.Rows.{path_of};
ghost use Rattle.ordered.specs.Ascents.{is_ascending};
ghost use Rattle.modules.specs.Rows.{row_names};

use arrayvec::ArrayVec;
use modules::rows::Row;

pub mod uses;

// At most one a path, in the order of the paths, each of them well formed.
#[derive(Drop)]
pub struct Ceilings {
    rows: ArrayVec<Row, 256>,
    ghost formed: { every (λ c. is_path c.path) (map row_names rows.items) ≡ true },
    ghost ascending: { is_ascending path_of path_order (map row_names rows.items) ≡ true },
}
