// Tables: in whatever order items come, they stand ascending, and a refused insertion changes nothing.
use crate::asks::{Malformed, nth_version, row};
use modules::exclusions::Exclusions;
use modules::listing::Listing;
use modules::requirements::Requirements;
use names::path::PlainPath;
use ordered::table::{NotInserted, Table};
use std::test::Fail;
use versions::version::PlainVersion;

fn version(text: &[u8]) -> Result<PlainVersion, Malformed> {
    PlainVersion::of(text).ok_or(Malformed)
}

fn path(text: &[u8]) -> Result<PlainPath, Malformed> {
    PlainPath::of(text).ok_or(Malformed)
}

#[test]
fn versions_ascend(rt: HostRuntime) -> Result<(), Fail> {
    let low = version(b"v0.1.0")?;
    let nine = version(b"v1.9.0")?;
    let early = version(b"v1.10.0-rc.1")?;
    let ten = version(b"v1.10.0")?;
    let two = version(b"v2.0.0")?;
    let mut listing = Listing::new();
    assert!(rt; listing.add(ten).is_ok());
    assert!(rt; listing.add(nine).is_ok());
    assert!(rt; listing.add(early).is_ok());
    assert_eq!(rt; listing.add(nine), Err(NotInserted::Present));
    let joined = listing.join(&[low, nine, two]).ok_or("there is room")?;
    assert!(rt; joined.as_slice() == [low, nine, early, ten, two].as_slice());
    Ok(())
}

#[test]
fn requirements_one_a_path(rt: HostRuntime) -> Result<(), Fail> {
    let rain = row(b"rain", b"v1.0.0")?;
    let trunk = row(b"trunk", b"v1.0.0")?;
    let mut rows = Requirements::new();
    assert!(rt; rows.add(trunk).is_ok());
    assert!(rt; rows.add(rain).is_ok());
    assert_eq!(rt;
        rows.add(row(b"trunk", b"v2.0.0")?),
        Err(NotInserted::Present)
    );
    assert!(rt; rows.as_slice() == [rain, trunk].as_slice());
    assert!(rt; rows.row(&trunk.path).is_some());
    assert_eq!(rt; rows.remove(&trunk.path), Some(trunk));
    assert_eq!(rt; rows.remove(&trunk.path), None);
    assert!(rt; rows.as_slice().len() == 1);
    Ok(())
}

#[test]
fn exclusions_full(rt: HostRuntime) -> Result<(), Fail> {
    let mut exclusions = Exclusions::new();
    for n in 0..32u8 {
        assert!(rt; exclusions.add(row(b"trunk", &nth_version(n))?).is_ok());
    }
    let last = row(b"trunk", b"v0.0.0")?;
    assert!(rt; exclusions.has(&last));
    assert_eq!(rt;
        exclusions.add(last),
        Err(NotInserted::Present),
        "present comes before full"
    );
    assert_eq!(rt;
        exclusions.add(row(b"rain", b"v0.0.0")?),
        Err(NotInserted::Full),
        "the 33rd"
    );
    assert!(rt; exclusions.as_slice().len() == 32);
    Ok(())
}

#[test]
fn paths_joined_and_full(rt: HostRuntime) -> Result<(), Fail> {
    let a = path(b"a")?;
    let b = path(b"b")?;
    let c = path(b"c")?;
    let mut table: Table<PlainPath, 2> = Table::new(PlainPath::blank());
    assert!(rt; table.insert(b).is_ok());
    assert!(rt; table.insert(a).is_ok());
    assert_eq!(rt; table.insert(c), Err(NotInserted::Full));
    assert!(rt; table.as_slice() == [a, b].as_slice());
    assert!(rt; table.join(&[a, b]).is_some());
    assert!(rt; table.join(&[c]).is_none());
    Ok(())
}
