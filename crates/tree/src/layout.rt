// Manifests as files in folders. That of a module version stands in the folder of its path, behind which comes `/@v`, and is named for its
// version with the ending `.mod`.
ghost use Rattle.std.specs.Prelude.{◌≡◌};
ghost use Rattle.std.specs.Option.{option_map};
ghost use Rattle.names.specs.Texts.{text_bytes};
ghost use Rattle.modules.specs.Rows.{names_of};
ghost use Rattle.tree.specs.Filenames.{before, bound};
ghost use Rattle.tree.specs.Layouts.{text_written, laid_out, LayoutRight};

use crate::escapes::read_text;
use crate::filenames::strip_ending;
use modules::rows::ModuleVersion;
use names::text::Text;

// The text that is written in front of an ending.
fn text_before(name: &[u8], ending: &[u8]) -> Option<Text>
    ensures value { option_map text_bytes result ≡ bound text_written (before ending.now name.now) }
{
    read_text(strip_ending(name, ending)?)
}

// The module version whose manifest is the file of the folder, if it is any. The folder is named from where the paths begin.
pub fn manifest_of(folder: &[u8], file: &[u8]) -> Option<ModuleVersion>
    ensures value { option_map names_of result ≡ laid_out folder.now file.now }
    ensures names { LayoutRight }
{
    let path = text_before(folder, b"/@v")?;
    let version = text_before(file, b".mod")?;
    ModuleVersion::check(path.as_bytes(), version.as_bytes())
}
