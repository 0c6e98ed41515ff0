// What is read, and what is known on the way.
ghost use Rattle.std.specs.Prelude.{◌≡◌};
ghost use Rattle.manifest.specs.Owners.{most_rows};

use lexer::verbs::Verb;
use names::path::Path;

// Whose manifest is read: it decides how many require rows there may be.
#[derive(Clone, Copy, PartialEq, Eq, Debug)]
pub enum Owner {
    Source,
    Project,
}

// What a manifest says: the path of its module, and how many rows it requires and excludes. The rows themselves stand in the lent slices.
#[derive(Clone, Copy)]
pub struct Manifest {
    pub main: Path,
    pub required: usize,
    pub excluded: usize,
}

// What is read so far, beside the rows: the verb of the block that is open, and the module's path once it is read.
// Kept: the rows stand beside it in two structs of their own. A struct that holds both loses what the slices hold in the end: the check
// follows a lent slice only through a struct of which it is a field itself, under a lifetime of its own. For the same reason no struct stands
// round the exclude rows to say their limit.
#[derive(Clone, Copy, PartialEq, Eq, Debug)]
pub(crate) struct Progress {
    pub(crate) block: Option<Verb>,
    pub(crate) main: Option<Path>,
}

impl Owner {
    // How many require rows a manifest may have.
    pub(crate) fn most(self) -> usize
        ensures value { result ≡ most_rows self }
    {
        match self {
            Owner::Source => 64,
            Owner::Project => 256,
        }
    }
}
