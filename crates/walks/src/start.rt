// The row that a sheet begins with.
ghost use Rattle.std.specs.Prelude.{◌≡◌};
ghost use Rattle.rules.specs.Projects.{main_row as row_of_main};
ghost use Rattle.names.specs.Paths.{path_bytes};
ghost use Rattle.modules.specs.Rows.{row_names};
ghost use Rattle.walks.specs.Views.{bare};

use modules::rows::Row;
use names::path::Path;
use versions::version::PlainVersion;

// The row of the main module.
pub fn main_row(main: &Path) -> Row
    ensures value { row_names result ≡ row_of_main (bare (path_bytes main.now)) }
{
    Row {
        path: main.plain(),
        version: PlainVersion::blank(),
    }
}
