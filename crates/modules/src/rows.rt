// A row is a path and a version that claim nothing: what tables and slices hold. A module version is one in which both are well formed.
// Both stand by their path, then by their version.
use names::path::{Path, PlainPath};
use versions::version::{PlainVersion, Version};

pub mod checks;
pub mod orders;

#[derive(Clone, Copy, PartialEq, Eq, PartialOrd, Ord, Debug)]
pub struct Row {
    pub path: PlainPath,
    pub version: PlainVersion,
}

#[derive(Clone, Copy, PartialEq, Eq, PartialOrd, Ord, Debug)]
pub struct ModuleVersion {
    pub path: Path,
    pub version: Version,
}
