// The main module of a project: its path and its requirement rows, at most 256, one a path, ascending and each well formed.
ghost use Rattle.std.specs.Prelude.{◌≡◌, true};
ghost use Rattle.rules.specs.Names.{is_module_version};
ghost use Rattle.rules.specs.Texts.{every};
ghost use Rattle.modules.specs.Tables.{requirement_names};

use modules::requirements::Requirements;
use names::path::Path;

pub mod changes;
pub mod reads;
mod start;

#[derive(Drop)]
pub struct MainModule {
    path: Path,
    requirements: Requirements,
    ghost formed: { every is_module_version (requirement_names requirements) ≡ true },
}
