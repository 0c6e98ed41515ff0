// `resolve pack DIR FILE`: the manifests of a folder as one tree buffer. They come in ascending order of their names, and the names are those on
// disk.
use crate::check::file_bytes;
use crate::failure::{Failure, about};
use crate::folder::{below, manifests_below};
use commands::packing::push_file;
use std::fs;

// The tree of a folder.
pub fn tree_of(rt: &HostRuntime, dir: &str) -> Result<Vec<u8>, Failure> {
    let names = manifests_below(rt, dir)?;
    let mut buffer = Vec::new(rt.alloc());
    for name in &names {
        let file = below(rt, dir, name)?;
        let body = file_bytes(rt, &file)?;
        // Kept: the name of the file moves into the failure, and is made anew for each file.
        if let Err(why) = push_file(&mut buffer, name.as_bytes(), &body) {
            return Err(Failure::NotPacked { file, why });
        }
    }
    Ok(buffer)
}

pub fn pack(rt: &HostRuntime, dir: &str, file: &str) -> Result<(), Failure> {
    let buffer = tree_of(rt, dir)?;
    fs::write(rt, file, &buffer).try_map_err(|error| about(rt, file, error))
}
