// Sources to be asked, and questions to them in short: how many were found, or the fault.
use causes::cause::Cause;
use modules::rows::{ModuleVersion, Row};
use names::path::Path;
use source::fault::Fault;
use source::questions::{ListingSource, Source};
use std::process::Abort;
use std::test::Fail;
use versions::version::PlainVersion;

// A name of an example is malformed, or too long to be held.
#[derive(Clone, Copy, Debug)]
pub(crate) struct Malformed;

pub(crate) fn module_version(path: &[u8], version: &[u8]) -> Result<ModuleVersion, Malformed> {
    ModuleVersion::check(path, version).ok_or(Malformed)
}

pub(crate) fn row(path: &[u8], version: &[u8]) -> Result<Row, Malformed> {
    Row::of(path, version).ok_or(Malformed)
}

pub(crate) fn rows_of<S: Source>(
    source: &mut S,
    path: &[u8],
    version: &[u8],
) -> Result<Result<usize, Fault>, Malformed> {
    let of = module_version(path, version)?;
    let mut rows = [Row::blank(); 64];
    Ok(source.requirements(&of, &mut rows).map(|found| found.count))
}

pub(crate) fn versions_of<S: ListingSource>(
    source: &mut S,
    path: &[u8],
) -> Result<Result<usize, Fault>, Malformed> {
    let of = Path::check(path).ok_or(Malformed)?;
    let mut versions = [PlainVersion::blank(); 64];
    Ok(source.versions(&of, &mut versions).map(|found| found.count))
}

pub(crate) fn fault(cause: Cause, place: usize, depth: u8) -> Result<usize, Fault> {
    Err(Fault {
        cause,
        place,
        depth,
    })
}

// The text of a version of three digits.
pub(crate) fn nth_version(n: u8) -> [u8; 6] {
    [b'v', b'0', b'.', b'0' + n / 10 % 10, b'.', b'0' + n % 10]
}

// A source of 64 versions of `a` lists them, and one of 65 does not, though the last has its list.
pub(crate) fn check_listings<S: ListingSource>(
    rt: &impl Abort,
    full: &mut S,
    over: &mut S,
) -> Result<(), Fail> {
    assert_eq!(rt; versions_of(full, b"a")?, Ok(64));
    assert_eq!(rt; versions_of(over, b"a")?, fault(Cause::TooManyToList, 0, 0));
    assert_eq!(rt;
        rows_of(over, b"a", b"v0.6.4")?,
        Ok(0),
        "the 65th has its list"
    );
    Ok(())
}

// A source of which nothing is known.
pub(crate) fn check_nothing<S: ListingSource>(rt: &impl Abort, source: &mut S) -> Result<(), Fail> {
    assert_eq!(rt;
        rows_of(source, b"a", b"v1.0.0")?,
        fault(Cause::Missing, 0, 0)
    );
    assert_eq!(rt; versions_of(source, b"a")?, Ok(0));
    Ok(())
}
