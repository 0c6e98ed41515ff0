// The manifests below a folder, by their names from there on, ascending by their bytes. Folders are looked into at any depth, but not through
// links; a link to a file counts as that file. A name that is no UTF-8 is none of a manifest.
use crate::failure::{Failure, about};
use std::fs;
use std::fs::DirEntry;
use std::io::ErrorKind;
use tree::layout::manifest_of;

// A name below a folder; either may be empty.
pub fn below(rt: &HostRuntime, folder: &str, name: &str) -> Result<String, Failure> {
    let mut path = String::from_str(rt.alloc(), folder)?;
    if !folder.is_empty() && !name.is_empty() {
        path.push('/')?;
    }
    path.push_str(name)?;
    Ok(path)
}

// Whether a file of a folder is laid out as the manifest of any module version.
fn is_manifest(folder: &str, name: &str) -> bool {
    manifest_of(folder.as_bytes(), name.as_bytes()).is_some()
}

// Names found on the way: folders that are yet to be looked into, and manifests.
#[derive(Drop)]
struct Found {
    folders: Vec<String>,
    manifests: Vec<String>,
}

impl Found {
    fn add(&mut self, rt: &HostRuntime, folder: &str, entry: &DirEntry) -> Result<(), Failure> {
        let name = entry.file_name();
        let path = below(rt, folder, name)?;
        if entry.file_type()?.is_dir() {
            self.folders.push(path)?;
        } else if is_manifest(folder, name) && entry.path().is_file(rt) {
            self.manifests.push(path)?;
        }
        Ok(())
    }

    // Adds what stands in a folder below the first one.
    fn look_into(&mut self, rt: &HostRuntime, dir: &str, folder: &str) -> Result<(), Failure> {
        let path = below(rt, dir, folder)?;
        let entries = fs::read_dir(rt, &path).try_map_err(|e| about(rt, &path, e))?;
        for entry in entries {
            match entry {
                Ok(entry) => self.add(rt, folder, &entry)?,
                Err(e) if e.kind() == ErrorKind::InvalidFilename => {}
                Err(e) => return Err(about(rt, &path, e)?),
            }
        }
        Ok(())
    }
}

pub fn manifests_below(rt: &HostRuntime, dir: &str) -> Result<Vec<String>, Failure> {
    let mut found = Found {
        folders: Vec::new(rt.alloc()),
        manifests: Vec::new(rt.alloc()),
    };
    found.look_into(rt, dir, "")?;
    // Kept: `while let` over the folders would have to be shown to end, and nothing says that folders do.
    for _ in 0..u64::MAX {
        let Some(folder) = found.folders.pop() else {
            break;
        };
        found.look_into(rt, dir, &folder)?;
    }
    let Found {
        folders,
        mut manifests,
    } = found;
    drop(folders);
    manifests.sort()?;
    Ok(manifests)
}
