// Which texts are paths and versions.
use crate::asks::{Malformed, row};
use modules::rows::{ModuleVersion, Row};
use names::path::{Path, PlainPath};
use names::text::Text;
use std::test::Fail;
use versions::version::{PlainVersion, Version};

fn is_path(text: &str) -> bool {
    Path::check(text.as_bytes()).is_some()
}

fn is_version(text: &str) -> bool {
    Version::check(text.as_bytes()).is_some()
}

#[test]
fn paths(rt: HostRuntime) {
    for (text, why) in [
        ("a", "one byte"),
        ("_", "the blank path"),
        ("Upper.Catchment/rain-2_~/v2", "every mark"),
        ("a..b/c", "dots inside"),
        (
            "aaaaaaaa/bbbbbbb/cccccccc/ddddddd/eeeeeeee/fffff",
            "48 bytes",
        ),
    ] {
        assert!(rt; is_path(text), "{why}");
    }
}

#[test]
fn no_paths(rt: HostRuntime) {
    for (text, why) in [
        ("", "empty"),
        (
            "aaaaaaaa/bbbbbbb/cccccccc/ddddddd/eeeeeeee/ffffff",
            "49 bytes",
        ),
        ("/a", "slash first"),
        ("a/", "slash last"),
        ("a//b", "an empty element"),
        (".a", "dot first"),
        ("a.", "dot last"),
        ("a/.b", "dot first in an element"),
        ("a./b", "dot last in an element"),
        ("a b", "a space"),
        ("a+b", "a plus"),
        ("\u{e4}", "no ASCII"),
    ] {
        assert!(rt; !is_path(text), "{why}");
    }
}

#[test]
fn versions(rt: HostRuntime) {
    for (text, why) in [
        ("v0.0.0", "three zeros"),
        ("v1.2.3-beta.2", "two identifiers"),
        ("v1.0.0--", "an identifier of a hyphen"),
        ("v1.0.0-0a", "a zero in front of a word"),
        (
            "v123456789012345678901234567890.0.0",
            "a number of 30 digits",
        ),
        ("v1.0.0-0123456789abcdefghijklmnopqrstuvw", "40 bytes"),
    ] {
        assert!(rt; is_version(text), "{why}");
    }
}

#[test]
fn no_versions(rt: HostRuntime) {
    for (text, why) in [
        ("", "empty"),
        ("1.0.0", "no v"),
        ("v1.0", "two numbers"),
        ("v1.0.0.0", "four numbers"),
        ("v1.02.0", "a zero in front"),
        ("v1.0.0-", "an empty identifier"),
        ("v1.0.0-01", "a zero in front of an identifier"),
        ("v1.0.0-a..b", "an empty identifier inside"),
        ("v1.0.0+a", "build metadata"),
        ("v1.0.0-0123456789abcdefghijklmnopqrstuvwx", "41 bytes"),
    ] {
        assert!(rt; !is_version(text), "{why}");
    }
}

#[test]
fn rows(rt: HostRuntime) -> Result<(), Fail> {
    assert!(rt; ModuleVersion::check(b"trunk", b"v1.0.0").is_some());
    assert!(rt; ModuleVersion::check(b"trunk", b"v1.0").is_none());
    assert!(rt; ModuleVersion::check(b"trunk/", b"v1.0.0").is_none());
    assert!(rt;
        Row::blank().check().is_some(),
        "the blank row is a module version"
    );
    let plain = row(b"..", b"v1.0.0")?;
    assert!(rt; plain.check().is_none(), "a row claims nothing");
    Ok(())
}

#[test]
fn texts(rt: HostRuntime) -> Result<(), Fail> {
    assert!(rt;
        Text::of(b"012345678901234567890123456789012345678901234567").is_some(),
        "48 bytes"
    );
    assert!(rt;
        Text::of(b"0123456789012345678901234567890123456789012345678").is_none(),
        "49 bytes"
    );
    assert!(rt;
        PlainPath::of(b"///").is_some(),
        "a plain path claims nothing"
    );
    let long = PlainVersion::of(b"v1.0.0-0123456789abcdefghijklmnopqrstuvwx").ok_or(Malformed)?;
    assert!(rt; long.check().is_none(), "it may have 41 bytes");
    Ok(())
}
