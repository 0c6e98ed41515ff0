// How names stand to one another.
use crate::asks::{Malformed, row};
use names::path::Path;
use std::cmp::Ordering;
use std::process::Abort;
use std::test::Fail;
use versions::texts::{compare, newer};
use versions::version::Version;

// Both ways of comparing, of texts and of values, and both ways round.
fn check_below(rt: &impl Abort, a: &str, b: &str) -> Result<(), Fail> {
    let v = Version::check(a.as_bytes()).ok_or(Malformed)?;
    let w = Version::check(b.as_bytes()).ok_or(Malformed)?;
    assert_eq!(rt;
        compare(a.as_bytes(), b.as_bytes()),
        Ordering::Less,
        "{a} {b}"
    );
    assert_eq!(rt;
        compare(b.as_bytes(), a.as_bytes()),
        Ordering::Greater,
        "{b} {a}"
    );
    assert_eq!(rt; v.cmp(&w), Ordering::Less, "{a} {b}");
    assert_eq!(rt; w.cmp(&v), Ordering::Greater, "{b} {a}");
    Ok(())
}

fn check_all_below(rt: &impl Abort, pairs: &[(&str, &str)]) -> Result<(), Fail> {
    for (a, b) in pairs {
        check_below(rt, a, b)?;
    }
    Ok(())
}

// The example of the SemVer document.
#[test]
fn semver(rt: HostRuntime) -> Result<(), Fail> {
    check_all_below(
        &rt,
        &[
            ("v1.0.0-alpha", "v1.0.0-alpha.1"),
            ("v1.0.0-alpha.1", "v1.0.0-alpha.beta"),
            ("v1.0.0-alpha.beta", "v1.0.0-beta"),
            ("v1.0.0-beta", "v1.0.0-beta.2"),
            ("v1.0.0-beta.2", "v1.0.0-beta.11"),
            ("v1.0.0-beta.11", "v1.0.0-rc.1"),
            ("v1.0.0-rc.1", "v1.0.0"),
            ("v1.0.0", "v2.0.0"),
            ("v2.0.0", "v2.1.0"),
            ("v2.1.0", "v2.1.1"),
            ("v1.9.0", "v1.10.0"),
        ],
    )
}

// 29 and 30 digits, 30 digits of which the last differs, and numbers around 64 bits.
#[test]
fn long_numbers(rt: HostRuntime) -> Result<(), Fail> {
    check_all_below(
        &rt,
        &[
            (
                "v99999999999999999999999999999.0.0",
                "v100000000000000000000000000000.0.0",
            ),
            (
                "v123456789012345678901234567890.0.0",
                "v123456789012345678901234567891.0.0",
            ),
            ("v1.0.0-18446744073709551615", "v1.0.0-18446744073709551616"),
        ],
    )
}

// Pairs of 40 bytes that differ only in the last.
#[test]
fn last_byte(rt: HostRuntime) -> Result<(), Fail> {
    check_all_below(
        &rt,
        &[
            (
                "v1.0.0-abcdefghijklmnopqrstuvwxyz0123450",
                "v1.0.0-abcdefghijklmnopqrstuvwxyz0123451",
            ),
            (
                "v1.0.0-123456789012345678901234567890120",
                "v1.0.0-123456789012345678901234567890121",
            ),
            (
                "v1.0.0-a.b.c.d.e.f.g.h.i.j.k.l.m.n.o.p.0",
                "v1.0.0-a.b.c.d.e.f.g.h.i.j.k.l.m.n.o.p.A",
            ),
            (
                "v1.0.12345678901234567890123456789012345",
                "v1.0.12345678901234567890123456789012346",
            ),
        ],
    )
}

#[test]
fn no_versions(rt: HostRuntime) {
    assert_eq!(rt;
        compare(b"v1.0", b"v0.0.0-0"),
        Ordering::Less,
        "what is no version is below"
    );
    assert_eq!(rt;
        compare(b"v1.0", b"v1.1"),
        Ordering::Less,
        "two that are none stand by bytes"
    );
    assert_eq!(rt; compare(b"", b""), Ordering::Equal);
}

#[test]
fn the_newer(rt: HostRuntime) {
    for (a, b, answer) in [
        ("v1.9.0", "v1.10.0", "v1.10.0"),
        ("v1.10.0", "v1.9.0", "v1.10.0"),
        ("none", "v0.0.0-0", "v0.0.0-0"),
        // the first, if neither is newer
        ("none", "other", "none"),
    ] {
        let given = newer(a.as_bytes(), b.as_bytes());
        assert!(rt; given == answer.as_bytes(), "{a} {b}");
    }
}

#[test]
fn paths(rt: HostRuntime) -> Result<(), Fail> {
    let a = Path::check(b"rain").ok_or(Malformed)?;
    let b = Path::check(b"rain/2026").ok_or(Malformed)?;
    assert_eq!(rt; a.cmp(&b), Ordering::Less, "a prefix is first");
    assert_eq!(rt; b.cmp(&a), Ordering::Greater);
    assert_eq!(rt; a.cmp(&a), Ordering::Equal);
    Ok(())
}

#[test]
fn rows(rt: HostRuntime) -> Result<(), Fail> {
    let a = row(b"rain", b"v2.0.0")?;
    let b = row(b"rain", b"v10.0.0")?;
    let c = row(b"rain/2", b"v1.0.0")?;
    assert_eq!(rt; a.cmp(&b), Ordering::Less);
    assert_eq!(rt; b.cmp(&c), Ordering::Less);
    assert_eq!(rt; c.cmp(&a), Ordering::Greater);
    Ok(())
}
