// How an accepted tree is read, file by file.
ghost use Rattle.std.specs.Prelude.{◌≡◌, map, length};
ghost use Rattle.std.specs.Option.{option_map};
ghost use Rattle.rules.specs.Questions.{told};
ghost use Rattle.rules.specs.Slices.{blank};
ghost use Rattle.versions.specs.Values.{plain_version_bytes};
ghost use Rattle.modules.specs.Rows.{row_names, names_of};
ghost use Rattle.source.specs.Answers.{answer_of};
ghost use Rattle.fields.specs.Views.{pair_cut_of};
ghost use Rattle.tree.specs.Files.{is_file_of, body_answer, file_version};

use crate::filenames::{is_named, version_in};
use crate::tree::Tree;
use bottoms::pairs::Pairs;
use fields::pair::Pair;
use manifest::kinds::Owner;
use manifest::reading::read;
use modules::rows::{ModuleVersion, Row};
use source::fault::{Fault, Found};
use versions::version::PlainVersion;

// A pair is a file: its name and its body.
impl Pairs for Tree<'_> {
    ghost asked = { is_file_of };

    ghost held = { file_version };

    fn is_asked(pair: Pair<'_>, of: &ModuleVersion) -> bool
        ensures value { result ≡ is_file_of (names_of of.now) (pair_cut_of pair.entry).pair }
    {
        is_named(pair.first, of, b".mod")
    }

    fn version_in(pair: Pair<'_>, path: &[u8]) -> Option<PlainVersion>
        ensures value { option_map plain_version_bytes result ≡ file_version path.now (pair_cut_of pair.entry).pair }
    {
        version_in(pair.first, path, b".mod")
    }
}

// Reads a manifest into the rows. What it excludes is checked, and has no effect.
pub(crate) fn read_manifest(body: &[u8], rows: &mut [Row]) -> Result<Found, Fault>
    ensures value { answer_of result ≡ (told blank (length rows.old) (body_answer body.now)).answer }
    ensures items { map row_names rows.new ≡ (told blank (length rows.old) (body_answer body.now)).slice }
{
    let mut excluded = [Row::blank(); 32];
    let manifest = read(body, Owner::Source, rows, &mut excluded)?;
    Ok(Found {
        count: manifest.required,
    })
}
