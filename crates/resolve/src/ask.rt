// `resolve show` and `resolve versions`: a question to a pile, and its answer or its refusal.
use crate::failure::{Failure, naming};
use crate::piles::{Task, with_pile};
use crate::print::{Ascii, print_rows};
use modules::rows::{ModuleVersion, Row};
use names::path::Path;
use source::questions::ListingSource;
use versions::version::{PlainVersion, Version};

// The path that a word is.
pub fn path_of(rt: &HostRuntime, word: &str) -> Result<Path, Failure> {
    Path::check(word.as_bytes()).try_ok_or_else(|| naming(rt, word, Failure::NoPath))
}

// The version that a word is.
pub fn version_of(rt: &HostRuntime, word: &str) -> Result<Version, Failure> {
    Version::check(word.as_bytes()).try_ok_or_else(|| naming(rt, word, Failure::NoVersion))
}

// The module version that two words are.
pub fn module_version_of(
    rt: &HostRuntime,
    path: &str,
    version: &str,
) -> Result<ModuleVersion, Failure> {
    let path = path_of(rt, path)?;
    let version = version_of(rt, version)?;
    Ok(ModuleVersion { path, version })
}

// The requirement rows of a module version.
pub fn show(rt: &HostRuntime, path: &str, version: &str, sources: &[&str]) -> Result<(), Failure> {
    let of = module_version_of(rt, path, version)?;
    let rows = with_pile(rt, sources, &Requirements { of })?;
    print_rows(rt, "", &rows)
}

// The versions of a path.
pub fn versions(rt: &HostRuntime, path: &str, sources: &[&str]) -> Result<(), Failure> {
    let of = path_of(rt, path)?;
    let versions = with_pile(rt, sources, &Listing { of })?;
    for version in &versions {
        println!(rt; "{}", Ascii(version.as_bytes()))?;
    }
    Ok(())
}

// The question for the rows of a module version.
#[derive(Clone, Copy)]
struct Requirements {
    of: ModuleVersion,
}

impl Task for Requirements {
    type Answer = Vec<Row>;

    fn run<S: ListingSource>(&self, rt: &HostRuntime, pile: &mut S) -> Result<Vec<Row>, Failure> {
        let mut rows = vec![in rt.alloc(); Row::blank(); 64]?;
        let found = pile.requirements(&self.of, &mut rows)?;
        rows.truncate(found.count);
        Ok(rows)
    }
}

// The question for the versions of a path.
#[derive(Clone, Copy)]
struct Listing {
    of: Path,
}

impl Task for Listing {
    type Answer = Vec<PlainVersion>;

    fn run<S: ListingSource>(
        &self,
        rt: &HostRuntime,
        pile: &mut S,
    ) -> Result<Vec<PlainVersion>, Failure> {
        let mut versions = vec![in rt.alloc(); PlainVersion::blank(); 64]?;
        let found = pile.versions(&self.of, &mut versions)?;
        versions.truncate(found.count);
        Ok(versions)
    }
}
