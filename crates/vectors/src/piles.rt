// Piles of layers: three sources by fallback, an exclude layer over them, and how deep their faults are.
use crate::asks::{fault, row, rows_of, versions_of};
use buffers::buffer::{Buffer, Kind};
use causes::cause::Cause;
use layers::exclude::Exclude;
use layers::fallback::Fallback;
use std::test::Fail;

// `a` at v1.0.0, with two rows.
const FIRST: &[u8; 39] = b"M\0\x01aV\0\x06v1.0.0R\0\x01bW\0\x06v1.0.0R\0\x01cW\0\x06v1.0.0";

// `a` at v2.0.0, whose manifest cannot be read.
const SECOND: &[u8; 36] = b"N\0\x0fa/@v/v2.0.0.modB\0\x0fmodule a\nmodule";

// `a` at v1.0.0 and v3.0.0, without rows.
const THIRD: &[u8; 26] = b"M\0\x01aV\0\x06v1.0.0M\0\x01aV\0\x06v3.0.0";

#[test]
fn fallback_of_three(rt: HostRuntime) -> Result<(), Fail> {
    let first = Buffer::open(Kind::Shelf, FIRST)?;
    let second = Buffer::open(Kind::Tree, SECOND)?;
    let third = Buffer::open(Kind::Shelf, THIRD)?;
    let mut pile = Fallback::new(first, Fallback::new(second, third));
    for (version, answer, why) in [
        ("v1.0.0", Ok(2), "the first has it"),
        (
            "v2.0.0",
            fault(Cause::WrongShape, 2, 2),
            "a fault of the second is none to look further at",
        ),
        ("v3.0.0", Ok(0), "the third has it"),
        ("v4.0.0", fault(Cause::Missing, 0, 2), "none has it"),
    ] {
        assert_eq!(rt;
            rows_of(&mut pile, b"a", version.as_bytes())?,
            answer,
            "{why}"
        );
    }
    assert_eq!(rt; versions_of(&mut pile, b"a")?, Ok(3));
    assert_eq!(rt; versions_of(&mut pile, b"b")?, Ok(0));
    Ok(())
}

#[test]
fn exclude_over_fallback(rt: HostRuntime) -> Result<(), Fail> {
    let first = Buffer::open(Kind::Shelf, FIRST)?;
    let second = Buffer::open(Kind::Tree, SECOND)?;
    let mut pile = Exclude::new(Fallback::new(first, second));
    assert!(rt; pile.exclude(row(b"c", b"v1.0.0")?).is_ok());
    for (path, version, answer, why) in [
        ("a", "v1.0.0", Ok(1), "a row is left out"),
        ("c", "v1.0.0", fault(Cause::Missing, 0, 0), "excluded here"),
        ("c", "v2.0.0", fault(Cause::Missing, 0, 2), "missing below"),
        (
            "a",
            "v2.0.0",
            fault(Cause::WrongShape, 2, 2),
            "a fault below",
        ),
    ] {
        let asked = rows_of(&mut pile, path.as_bytes(), version.as_bytes())?;
        assert_eq!(rt; asked, answer, "{why}");
    }
    assert!(rt; pile.exclude(row(b"a", b"v2.0.0")?).is_ok());
    assert_eq!(rt;
        versions_of(&mut pile, b"a")?,
        Ok(1),
        "a version is left out"
    );
    Ok(())
}
