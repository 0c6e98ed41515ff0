// `resolve check MANIFEST`: what a project's manifest says, row by row in the order read, or why and at which line it is refused.
use crate::failure::{Failure, about};
use crate::print::{Ascii, first, print_rows};
use manifest::kinds::Owner;
use manifest::reading::read;
use modules::rows::Row;
use std::fs;

// The bytes of a file.
pub fn file_bytes(rt: &HostRuntime, file: &str) -> Result<Vec<u8>, Failure> {
    fs::read(rt, file).try_map_err(|error| about(rt, file, error))
}

pub fn check(rt: &HostRuntime, file: &str) -> Result<(), Failure> {
    let text = file_bytes(rt, file)?;
    let mut required = [Row::blank(); 256];
    let mut excluded = [Row::blank(); 32];
    let manifest = read(&text, Owner::Project, &mut required, &mut excluded)?;
    println!(rt; "module {}", Ascii(manifest.main.as_bytes()))?;
    print_rows(rt, "require ", first(&required, manifest.required))?;
    print_rows(rt, "exclude ", first(&excluded, manifest.excluded))
}
