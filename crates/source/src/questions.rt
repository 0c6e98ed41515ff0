// The two questions. A source means something: a requirement list or a fault for each module version, and a listing or a fault for each path.
// A question leaves the whole meaning as it was. It is asked in a slice that is lent: one of fewer than 64 places is refused before all else;
// else the meaning's answer is given. The slice then holds what was found, and blanks behind it.
ghost use Rattle.std.specs.Prelude.{◌≡◌, List, [], map, length};
ghost use Rattle.rules.specs.Sources.{Meaning, Lawful};
ghost use Rattle.rules.specs.Questions.{requirements_told, listing_told};
ghost use Rattle.names.specs.Paths.{path_bytes};
ghost use Rattle.versions.specs.Values.{plain_version_bytes};
ghost use Rattle.modules.specs.Rows.{row_names, names_of};
ghost use Rattle.source.specs.Answers.{answer_of};
ghost use Rattle.source.specs.Insides.{Inside};

use crate::fault::{Fault, Found};
use modules::rows::{ModuleVersion, Row};
use names::path::Path;
use versions::version::PlainVersion;

pub trait Source {
    ghost meaning: { Self → Meaning };

    ghost lawful: { (s : Self) → Lawful (meaning s) };

    // What layers have inside, from the top down: code that owns a layer knows by it that a question changed nothing there either. A source that
    // is no layer shows nothing.
    ghost inside: { Self → List Inside } = { λ _. [] };

    // The requirement list of a module version.
    fn requirements(&mut self, of: &ModuleVersion, rows: &mut [Row]) -> Result<Found, Fault>
        ensures same { meaning self.new ≡ meaning self.old }
        ensures inside { inside self.new ≡ inside self.old }
        ensures value { answer_of result ≡ (requirements_told (meaning self.old) (names_of of.now) (length rows.old)).answer }
        ensures items { map row_names rows.new ≡ (requirements_told (meaning self.old) (names_of of.now) (length rows.old)).slice };
}

pub trait ListingSource: Source {
    // The versions of a path, ascending.
    fn versions(&mut self, of: &Path, versions: &mut [PlainVersion]) -> Result<Found, Fault>
        ensures same { Self.Source.meaning self.new ≡ Self.Source.meaning self.old }
        ensures inside { Self.Source.inside self.new ≡ Self.Source.inside self.old }
        ensures value { answer_of result ≡ (listing_told (Self.Source.meaning self.old) (path_bytes of.now) (length versions.old)).answer }
        ensures items { map plain_version_bytes versions.new ≡ (listing_told (Self.Source.meaning self.old) (path_bytes of.now) (length versions.old)).slice };
}
