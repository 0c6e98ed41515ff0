// A requirement raised or dropped. What is refused changes nothing.
ghost use Rattle.std.specs.Prelude.{◌≡◌, ◌≤◌, true, List, map, length};
ghost use Rattle.rules.specs.Calls.{raised, dropped};
ghost use Rattle.rules.specs.Names.{ModuleVersion as Names, is_module_version};
ghost use Rattle.rules.specs.Rows.{row_of as row_at, table};
ghost use Rattle.rules.specs.Texts.{every};
ghost use Rattle.names.specs.Paths.{path_bytes};
ghost use Rattle.modules.specs.Rows.{row_names, names_of};
ghost use Rattle.modules.specs.Tables.{requirement_names};
ghost use Rattle.causes.specs.Told.{cause_of as cause_told};
ghost use Rattle.project.specs.States.{main_state, changed};
ghost use Rattle.project.specs.Raises.{raise_cause};

use super::MainModule;
use causes::cause::Cause;
use causes::refusal::Refusal;
use modules::requirements::Requirements;
use modules::requirements::raises::NotRaised;
use modules::rows::{ModuleVersion, Row};
use names::path::Path;

// Why a row was not raised.
// Kept: no From, since neither type is of this crate.
fn cause_of(refused: NotRaised) -> Cause
    ensures value { cause_told result ≡ raise_cause refused }
{
    match refused {
        NotRaised::NotHigher => Cause::NothingToChange,
        NotRaised::NoRoom => Cause::TableFull,
    }
}

impl MainModule {
    // A path with these rows, of each path the highest.
    pub(crate) fn of(path: Path, rows: &[Row]) -> MainModule
        requires { (length rows.now ≤ 256) × (every is_module_version (map row_names rows.now) ≡ true) }
        ensures path { result.path ≡ path }
        ensures value { requirement_names result.requirements ≡ table (map row_names rows.now) }
    {
        MainModule {
            path,
            requirements: Requirements::of(rows).unwrap(),
        }
    }

    // Sets the row of a path to a higher version, or adds it.
    pub fn raise(&mut self, of: &ModuleVersion) -> Result<(), Refusal>
        ensures value { (es : List Names) → changed result (main_state self.new es) ≡ raised (main_state self.old es) (names_of of.now) (row_at (names_of of.now).path (main_state self.old es).rows) }
    {
        self.requirements.raise(of.row()).map_err(cause_of)?;
        Ok(())
    }

    // Takes the row of a path out.
    pub fn drop_row(&mut self, path: &Path) -> Result<(), Refusal>
        ensures value { (es : List Names) → changed result (main_state self.new es) ≡ dropped (main_state self.old es) (path_bytes path.now) (row_at (path_bytes path.now) (main_state self.old es).rows) }
    {
        self.requirements
            .remove(&path.plain())
            .ok_or(Cause::NothingToChange)?;
        Ok(())
    }

    // Other rows in the place of those that there are.
    pub(crate) fn take_rows(&mut self, rows: Requirements)
        requires { every is_module_version (requirement_names rows) ≡ true }
        ensures after { self.new.requirements ≡ rows }
        ensures same { self.new.path ≡ self.old.path }
    {
        self.requirements = rows;
    }
}
