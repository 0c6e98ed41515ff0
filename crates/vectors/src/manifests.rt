// Manifests at the edges of the rules: lengths, numbers of rows, line ends.
use causes::cause::Cause;
use causes::refusal::Refusal;
use manifest::kinds::Owner;
use manifest::reading::read;
use modules::rows::Row;
use std::alloc::{AllocError, Global};
use std::test::Fail;

// How many rows of each kind a manifest has, or why it is refused.
fn counts(text: &[u8], owner: Owner) -> Result<(usize, usize), Refusal> {
    let mut required = [Row::blank(); 256];
    let mut excluded = [Row::blank(); 32];
    read(text, owner, &mut required, &mut excluded).map(|m| (m.required, m.excluded))
}

fn refused(cause: Cause, place: usize) -> Result<(usize, usize), Refusal> {
    Err(Refusal::at(cause, place))
}

// A module line, then a line so many times.
pub(crate) fn repeated(heap: Global, line: &[u8], times: usize) -> Result<Vec<u8>, AllocError> {
    let mut text = Vec::new(heap);
    text.extend_from_slice(b"module m\n")?;
    for _ in 0..times {
        text.extend_from_slice(line)?;
    }
    Ok(text)
}

// What such a text comes to.
fn counts_of(
    heap: Global,
    line: &[u8],
    times: usize,
    owner: Owner,
) -> Result<Result<(usize, usize), Refusal>, AllocError> {
    let text = repeated(heap, line, times)?;
    Ok(counts(&text, owner))
}

const REQUIRE: &[u8; 17] = b"require a v1.0.0\n";

const EXCLUDE: &[u8; 17] = b"exclude a v1.0.0\n";

#[test]
fn rows_of_a_source(rt: HostRuntime) -> Result<(), Fail> {
    let full = counts_of(rt.alloc(), REQUIRE, 64, Owner::Source)?;
    assert_eq!(rt; full, Ok((64, 0)));
    let over = counts_of(rt.alloc(), REQUIRE, 65, Owner::Source)?;
    assert_eq!(rt; over, refused(Cause::RowTooMany, 66));
    Ok(())
}

#[test]
fn rows_of_a_project(rt: HostRuntime) -> Result<(), Fail> {
    let full = counts_of(rt.alloc(), REQUIRE, 256, Owner::Project)?;
    assert_eq!(rt; full, Ok((256, 0)));
    let over = counts_of(rt.alloc(), REQUIRE, 257, Owner::Project)?;
    assert_eq!(rt; over, refused(Cause::RowTooMany, 258));
    Ok(())
}

#[test]
fn exclude_rows(rt: HostRuntime) -> Result<(), Fail> {
    let full = counts_of(rt.alloc(), EXCLUDE, 32, Owner::Source)?;
    assert_eq!(rt; full, Ok((0, 32)));
    let over = counts_of(rt.alloc(), EXCLUDE, 33, Owner::Project)?;
    assert_eq!(rt; over, refused(Cause::RowTooMany, 34));
    Ok(())
}

#[test]
fn lengths(rt: HostRuntime) -> Result<(), Fail> {
    let mut text = repeated(rt.alloc(), b"\n", 32759)?;
    assert!(rt; text.len() == 32768);
    assert_eq!(rt; counts(&text, Owner::Project), Ok((0, 0)), "32,768 bytes");
    text.push(b'\n')?;
    assert_eq!(rt;
        counts(&text, Owner::Project),
        refused(Cause::TooLong, 0),
        "32,769 bytes"
    );
    Ok(())
}

#[test]
fn line_ends_and_comments(rt: HostRuntime) {
    for (text, answer, why) in [
        ("module m\r\nrequire a v1.0.0\r\n", Ok((1, 0)), "CRLF"),
        (
            "module m // \"the end",
            Ok((0, 0)),
            "a comment at the very end",
        ),
        ("module m//n", Ok((0, 0)), "a comment inside a word"),
        ("", refused(Cause::ModuleLine, 0), "an empty text"),
        (
            "module m\nrequire a v1.0.0 // x\n\nrequire b\n",
            refused(Cause::WrongShape, 4),
            "lines are counted past comments",
        ),
    ] {
        assert_eq!(rt; counts(text.as_bytes(), Owner::Project), answer, "{why}");
    }
}

#[test]
fn refusals_in_their_order(rt: HostRuntime) {
    for (text, cause, line) in [
        ("module m\nrequire .a \"v1\"\n", Cause::BadByte, 2),
        ("module m\nrequire .a v1 x\n", Cause::WrongShape, 2),
        ("module m\nrequire .a v1\n", Cause::BadPath, 2),
        ("module m\nrequire a v1\n", Cause::BadVersion, 2),
        ("module m\nmodule m\n", Cause::ModuleLine, 2),
        // an open block comes before no module line
        ("retract (\n", Cause::WrongShape, 0),
    ] {
        let given = counts(text.as_bytes(), Owner::Project);
        assert_eq!(rt; given, refused(cause, line), "{text}");
    }
}
