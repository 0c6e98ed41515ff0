// The calls that change the tables of a project: load, raise, drop and exclude. None of them asks the pile. Each answers and leaves exactly what the
// rules make of it; refused, it leaves the project as it was.
ghost use Rattle.std.specs.Prelude.{◌≡◌};
ghost use Rattle.rules.specs.Calls.{does, load as load_call, raise as raise_call, drop as drop_call, exclude as exclude_call};
ghost use Rattle.rules.specs.Manifests.{reading};
ghost use Rattle.names.specs.Paths.{path_bytes};
ghost use Rattle.modules.specs.Rows.{names_of};
ghost use Rattle.project.specs.Projects.{state_of, pile_of};
ghost use Rattle.project.specs.States.{changed};

use super::Project;
use crate::loading::read_project;
use causes::refusal::Refusal;
use modules::rows::ModuleVersion;
use names::path::Path;
use source::questions::Source;

impl<S: Source> Project<S> {
    // Reads a manifest, and takes over its main path, its rows and its exclusions.
    pub fn load(&mut self, text: &[u8]) -> Result<(), Refusal>
        ensures value { changed result (state_of self.new) ≡ does (pile_of S.Source.meaning self.old) (state_of self.old) (load_call (reading 256 text.now)) }
        ensures same { self.new.layer.below ≡ self.old.layer.below }
    {
        let loaded = read_project(text)?;
        self.main = loaded.main;
        self.layer.replace_exclusions(loaded.exclusions);
        Ok(())
    }

    // Sets the row of a path to a higher version, or adds it.
    pub fn raise(&mut self, of: &ModuleVersion) -> Result<(), Refusal>
        ensures value { changed result (state_of self.new) ≡ does (pile_of S.Source.meaning self.old) (state_of self.old) (raise_call (names_of of.now)) }
        ensures same { self.new.layer.below ≡ self.old.layer.below }
    {
        self.main.raise(of)
    }

    // Takes the row of a path out.
    pub fn drop_row(&mut self, path: &Path) -> Result<(), Refusal>
        ensures value { changed result (state_of self.new) ≡ does (pile_of S.Source.meaning self.old) (state_of self.old) (drop_call (path_bytes path.now)) }
        ensures same { self.new.layer.below ≡ self.old.layer.below }
    {
        self.main.drop_row(path)
    }

    // One exclusion more.
    pub fn exclude(&mut self, of: &ModuleVersion) -> Result<(), Refusal>
        ensures value { changed result (state_of self.new) ≡ does (pile_of S.Source.meaning self.old) (state_of self.old) (exclude_call (names_of of.now)) }
        ensures same { self.new.layer.below ≡ self.old.layer.below }
    {
        self.layer.exclude(of.row()).map_err(Refusal::from)
    }
}
