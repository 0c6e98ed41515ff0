// What a row can be made of: a row, and a module version.
ghost use Rattle.std.specs.Prelude.{◌≡◌};
ghost use Rattle.rules.specs.Names.{ModuleVersion as Names};
ghost use Rattle.modules.specs.Rows.{row_names, names_of};

use modules::rows::{ModuleVersion, Row};

pub trait AsRow {
    ghost names: { Self → Names };

    fn as_row(&self) -> Row
        ensures value { row_names result ≡ names self.now };
}

impl AsRow for Row {
    ghost names = { row_names };

    fn as_row(&self) -> Row {
        *self
    }
}

impl AsRow for ModuleVersion {
    ghost names = { names_of };

    fn as_row(&self) -> Row {
        self.row()
    }
}
