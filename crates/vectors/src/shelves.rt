// Shelves at the edges of the rules: how many rows and versions, and every place where one may be cut.
use crate::asks::{check_listings, check_nothing, nth_version, rows_of};
use causes::cause::Cause;
use causes::refusal::Refusal;
use shelf::shelf::Shelf;
use std::alloc::{AllocError, Global};
use std::test::Fail;

// Appends a field of fewer than 256 bytes.
pub(crate) fn push_field(shelf: &mut Vec<u8>, tag: u8, bytes: &[u8]) -> Result<(), AllocError> {
    let front = [tag, 0, (bytes.len() % 256) as u8];
    shelf.extend_from_slice(&front)?;
    shelf.extend_from_slice(bytes)
}

// A record of `a` at v1.0.0 with a row so many times.
fn record_of(heap: Global, rows: usize) -> Result<Vec<u8>, AllocError> {
    let mut shelf = Vec::new(heap);
    push_field(&mut shelf, b'M', b"a")?;
    push_field(&mut shelf, b'V', b"v1.0.0")?;
    for _ in 0..rows {
        push_field(&mut shelf, b'R', b"b")?;
        push_field(&mut shelf, b'W', b"v1.0.0")?;
    }
    Ok(shelf)
}

// Records of so many versions of `a`, each without rows.
fn records_of(heap: Global, versions: u8) -> Result<Vec<u8>, AllocError> {
    let mut shelf = Vec::new(heap);
    for n in 0..versions {
        push_field(&mut shelf, b'M', b"a")?;
        push_field(&mut shelf, b'V', &nth_version(n))?;
    }
    Ok(shelf)
}

#[test]
fn rows_of_a_record(rt: HostRuntime) -> Result<(), Fail> {
    let full = record_of(rt.alloc(), 64)?;
    let mut shelf = Shelf::open(&full)?;
    assert_eq!(rt; rows_of(&mut shelf, b"a", b"v1.0.0")?, Ok(64));
    let over = record_of(rt.alloc(), 65)?;
    assert_eq!(rt;
        Shelf::open(&over).err(),
        Some(Refusal::at(Cause::RowTooMany, 13 + 64 * 13)),
        "the 65th R"
    );
    assert_eq!(rt;
        rows_of(&mut shelf, b"a", b"v1.0.0")?,
        Ok(64),
        "it is as it was"
    );
    Ok(())
}

#[test]
fn versions_of_a_path(rt: HostRuntime) -> Result<(), Fail> {
    let full = records_of(rt.alloc(), 64)?;
    let over = records_of(rt.alloc(), 65)?;
    check_listings(&rt, &mut Shelf::open(&full)?, &mut Shelf::open(&over)?)
}

#[test]
fn nothing_on_it(rt: HostRuntime) -> Result<(), Fail> {
    check_nothing(&rt, &mut Shelf::open(b"")?)
}

// Two records, one with a row. Its fields begin at 0, 4, 13, 17, 26 and 30.
const SMALL: &[u8; 39] = b"M\0\x01aV\0\x06v1.0.0R\0\x01bW\0\x06v1.0.0M\0\x01bV\0\x06v1.0.0";

// What opening the first bytes gives: a cut is told where its field begins, a missing field where the buffer ends.
fn opening_of_first(n: usize) -> Option<Refusal> {
    let bounds = [0usize, 4, 13, 17, 26, 30, 39];
    let place = bounds.iter().rfind(|bound| **bound <= n).copied();
    match n {
        0 | 13 | 26 | 39 => None,
        _ => Some(Refusal::at(Cause::DamagedBuffer, place.unwrap_or(0))),
    }
}

#[test]
fn every_cut(rt: HostRuntime) {
    for n in 0..40 {
        assert_eq!(rt; Shelf::open(&SMALL[..n]).err(), opening_of_first(n));
    }
}
