// What a main module says of itself, and the rows that a walk starts from.
ghost use Rattle.std.specs.Prelude.{◌≡◌, [], map};
ghost use Rattle.rules.specs.Runs.{fresh as fresh_state};
ghost use Rattle.rules.specs.Sources.{included};
ghost use Rattle.modules.specs.Rows.{row_names, names_of};
ghost use Rattle.modules.specs.Tables.{exclusion_names};
ghost use Rattle.project.specs.States.{main_state};

use super::MainModule;
use super::start::Start;
use layers::exclusions::is_excluded;
use modules::exclusions::Exclusions;
use modules::requirements::Requirements;
use modules::rows::{ModuleVersion, Row};
use names::path::Path;

impl MainModule {
    // `_`, which requires nothing.
    pub fn fresh() -> MainModule
        ensures value { main_state result [] ≡ fresh_state }
    {
        MainModule {
            path: Path::check(b"_").unwrap(),
            requirements: Requirements::new(),
        }
    }

    pub fn path(&self) -> &Path
        ensures value { result.now ≡ self.now.path }
    {
        &self.path
    }

    pub fn rows(&self) -> &[Row]
        ensures value { map row_names result.now ≡ (main_state self.now []).rows }
    {
        self.requirements.as_slice()
    }

    // The rows that are not excluded, as module versions.
    pub(crate) fn start(&self, exclusions: &Exclusions) -> Start
        ensures value { map names_of result ≡ included (exclusion_names exclusions.now) (main_state self.now []).rows }
    {
        let mut rows = [ModuleVersion::default(); 256];
        let mut count = 0;
        for row in self.requirements.as_slice() {
            if !is_excluded(exclusions, row) {
                rows[count] = row.checked();
                count += 1;
            }
        }
        Start { rows, count }
    }
}
