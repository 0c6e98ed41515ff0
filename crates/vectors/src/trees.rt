// Trees at the edges of the rules: how many rows and versions, and names with upper-case letters.
use crate::asks::{check_listings, check_nothing, fault, nth_version, rows_of, versions_of};
use crate::manifests::repeated;
use causes::cause::Cause;
use commands::packing::{NotPacked, push_file};
use source::fault::Fault;
use std::alloc::Global;
use std::test::Fail;
use tree::layout::manifest_of;
use tree::tree::Tree;

// A tree of one manifest, in which a line stands so many times.
fn file_of(heap: Global, line: &[u8], times: usize) -> Result<Vec<u8>, NotPacked> {
    let body = repeated(heap, line, times)?;
    let mut tree = Vec::new(heap);
    push_file(&mut tree, b"a/@v/v1.0.0.mod", &body)?;
    Ok(tree)
}

// What is answered for it.
fn answer_of(heap: Global, line: &[u8], times: usize) -> Result<Result<usize, Fault>, Fail> {
    let bytes = file_of(heap, line, times)?;
    let mut tree = Tree::open(&bytes)?;
    Ok(rows_of(&mut tree, b"a", b"v1.0.0")?)
}

#[test]
fn rows_of_a_body(rt: HostRuntime) -> Result<(), Fail> {
    let require = b"require b v1.0.0\n";
    assert_eq!(rt; answer_of(rt.alloc(), require, 64)?, Ok(64));
    let over = answer_of(rt.alloc(), require, 65)?;
    assert_eq!(rt; over, fault(Cause::RowTooMany, 66, 0));
    Ok(())
}

#[test]
fn exclude_rows_of_a_body(rt: HostRuntime) -> Result<(), Fail> {
    let exclude = b"exclude b v1.0.0\n";
    assert_eq!(rt; answer_of(rt.alloc(), exclude, 32)?, Ok(0));
    let over = answer_of(rt.alloc(), exclude, 33)?;
    assert_eq!(rt; over, fault(Cause::RowTooMany, 34, 0));
    Ok(())
}

// So many versions of `a`, each with the same short manifest.
fn files_of(heap: Global, versions: u8) -> Result<Vec<u8>, NotPacked> {
    let mut tree = Vec::new(heap);
    for n in 0..versions {
        let mut name = Vec::new(heap);
        name.extend_from_slice(b"a/@v/")?;
        name.extend_from_slice(&nth_version(n))?;
        name.extend_from_slice(b".mod")?;
        push_file(&mut tree, &name, b"module a")?;
    }
    Ok(tree)
}

#[test]
fn versions_of_a_path(rt: HostRuntime) -> Result<(), Fail> {
    let full = files_of(rt.alloc(), 64)?;
    let over = files_of(rt.alloc(), 65)?;
    check_listings(&rt, &mut Tree::open(&full)?, &mut Tree::open(&over)?)
}

#[test]
fn nothing_in_it(rt: HostRuntime) -> Result<(), Fail> {
    check_nothing(&rt, &mut Tree::open(b"")?)
}

// A name with upper-case letters, and two in which they stand as they are.
fn upper_files(heap: Global) -> Result<Vec<u8>, NotPacked> {
    let mut tree = Vec::new(heap);
    let body = b"module up/A\nrequire b v1.0.0";
    push_file(&mut tree, b"up/!a/@v/v1.0.0-!r!c.mod", body)?;
    push_file(&mut tree, b"up/A/@v/v2.0.0.mod", body)?;
    push_file(&mut tree, b"up/!a/@v/v3.0.0-RC.mod", body)?;
    Ok(tree)
}

#[test]
fn upper_case(rt: HostRuntime) -> Result<(), Fail> {
    let bytes = upper_files(rt.alloc())?;
    let mut tree = Tree::open(&bytes)?;
    assert_eq!(rt; rows_of(&mut tree, b"up/A", b"v1.0.0-RC")?, Ok(1));
    assert_eq!(rt;
        versions_of(&mut tree, b"up/A")?,
        Ok(1),
        "letters as they are name no manifest"
    );
    assert_eq!(rt;
        rows_of(&mut tree, b"up/a", b"v1.0.0-rc")?,
        fault(Cause::Missing, 0, 0)
    );
    assert_eq!(rt; versions_of(&mut tree, b"up/a")?, Ok(0));
    Ok(())
}

#[test]
fn laid_out(rt: HostRuntime) {
    for (folder, name, laid_out, why) in [
        ("up/!a/@v", "v1.0.0-!r!c.mod", true, "marked letters"),
        ("up/A/@v", "v1.0.0.mod", false, "an upper-case letter"),
        ("up/!/@v", "v1.0.0.mod", false, "a mark without a letter"),
        ("up/a", "v1.0.0.mod", false, "another folder"),
        ("/@v", "v1.0.0.mod", false, "no path"),
        ("up/@v", "v1.0.mod", false, "no version"),
        ("up/@v", "v1.0.0.info", false, "another ending"),
    ] {
        let found = manifest_of(folder.as_bytes(), name.as_bytes()).is_some();
        assert_eq!(rt; found, laid_out, "{why}");
    }
}
