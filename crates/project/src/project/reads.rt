// A project made, and what it says of itself.
ghost use Rattle.std.specs.Prelude.{◌≡◌, map};
ghost use Rattle.rules.specs.Runs.{fresh as fresh_state};
ghost use Rattle.names.specs.Paths.{path_bytes};
ghost use Rattle.modules.specs.Rows.{row_names};
ghost use Rattle.project.specs.Projects.{state_of};

use super::Project;
use crate::main_module::MainModule;
use layers::exclude::Exclude;
use modules::rows::Row;
use names::path::Path;

impl<S> Project<S> {
    // A fresh project over a pile.
    pub fn new(pile: S) -> Project<S>
        ensures value { state_of result ≡ fresh_state }
        ensures same { result.layer.below ≡ pile }
    {
        Project {
            main: MainModule::fresh(),
            layer: Exclude::new(pile),
        }
    }

    // The path of the main module.
    pub fn main(&self) -> &Path
        ensures value { path_bytes result.now ≡ (state_of self.now).main }
    {
        self.main.path()
    }

    pub fn requirements(&self) -> &[Row]
        ensures value { map row_names result.now ≡ (state_of self.now).rows }
    {
        self.main.rows()
    }

    pub fn exclusions(&self) -> &[Row]
        ensures value { map row_names result.now ≡ (state_of self.now).exclusions }
    {
        self.layer.exclusions()
    }
}
