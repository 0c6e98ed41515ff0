// The names of files: a path, `/@v/`, a version and an ending.
ghost use Rattle.std.specs.Prelude.{◌≡◌};
ghost use Rattle.std.specs.Option.{option_map};
ghost use Rattle.std.specs.Str.{bytes_eq};
ghost use Rattle.versions.specs.Values.{plain_version_bytes};
ghost use Rattle.modules.specs.Rows.{names_of};
ghost use Rattle.tree.specs.Escapes.{escaped};
ghost use Rattle.tree.specs.Filenames.{between, file_name, behind, before, bound, version_behind, version_held};

use crate::escapes::{read_version, strip, strip_escaped};
use modules::rows::ModuleVersion;
use versions::version::PlainVersion;

// What stands in front of a text that ends the bytes.
pub(crate) fn strip_ending<'a>(bytes: &'a [u8], ending: &[u8]) -> Option<&'a [u8]>
    ensures value { option_map (λ s. s.now) result ≡ before ending.now bytes.now }
{
    bytes.strip_suffix(ending)
}

// What stands behind the path in a name.
fn behind_path<'a>(name: &'a [u8], path: &[u8]) -> Option<&'a [u8]>
    ensures value { option_map (λ s. s.now) result ≡ bound (behind between) (behind (escaped path.now) name.now) }
{
    strip(strip_escaped(name, path)?, b"/@v/")
}

// What stands behind the path and the version in a name.
fn behind_version<'a>(name: &'a [u8], of: &ModuleVersion) -> Option<&'a [u8]>
    ensures value { option_map (λ s. s.now) result ≡ version_behind name.now (names_of of.now) }
{
    strip_escaped(
        behind_path(name, of.path.as_bytes())?,
        of.version.as_bytes(),
    )
}

// Whether a name is that of the module version with an ending.
pub(crate) fn is_named(name: &[u8], of: &ModuleVersion, ending: &[u8]) -> bool
    ensures value { result ≡ bytes_eq name.now (file_name ending.now (names_of of.now)) }
{
    behind_version(name, of).is_some_and(|rest| rest == ending)
}

// The version that a name with an ending holds for a path.
pub(crate) fn version_in(name: &[u8], path: &[u8], ending: &[u8]) -> Option<PlainVersion>
    ensures value { option_map plain_version_bytes result ≡ version_held ending.now path.now name.now }
{
    let rest = behind_path(name, path)?;
    read_version(strip_ending(rest, ending)?)
}
