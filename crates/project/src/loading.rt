// Reading a project's manifest: its main module, of each path the highest of its rows, and its exclusions, each once.
ghost use Rattle.std.specs.Prelude.{◌≡◌, ◌≤◌, map, length};
ghost use Rattle.rules.specs.Calls.{loaded};
ghost use Rattle.rules.specs.Manifests.{reading};
ghost use Rattle.rules.specs.Projects.{State};
ghost use Rattle.rules.specs.Rows.{exclusion_table};
ghost use Rattle.modules.specs.Rows.{row_names};
ghost use Rattle.modules.specs.Tables.{exclusion_names};
ghost use Rattle.project.specs.Loads.{loaded_as};

use crate::main_module::MainModule;
use causes::refusal::Refusal;
use manifest::kinds::Owner;
use manifest::reading::read;
use modules::exclusions::Exclusions;
use modules::rows::Row;

// What a project's manifest says.
#[derive(Drop)]
pub struct Loaded {
    pub main: MainModule,
    pub exclusions: Exclusions,
}

// The table of at most 32 exclusions.
fn exclusions_of(rows: &[Row]) -> Exclusions
    requires { length rows.now ≤ 32 }
    ensures value { exclusion_names result ≡ exclusion_table (map row_names rows.now) }
{
    Exclusions::of(rows).unwrap()
}

// Reads a text of at most 256 require rows and 32 exclude rows, or says why and at which line it is refused.
pub fn read_project(text: &[u8]) -> Result<Loaded, Refusal>
    ensures value { (s : State) → loaded_as result s ≡ loaded s (reading 256 text.now) }
{
    let mut required = [Row::blank(); 256];
    let mut excluded = [Row::blank(); 32];
    let manifest = read(text, Owner::Project, &mut required, &mut excluded)?;
    let main = MainModule::of(manifest.main, &required[..manifest.required]);
    let exclusions = exclusions_of(&excluded[..manifest.excluded]);
    Ok(Loaded { main, exclusions })
}
