// The versions of two listings in one: each once, ascending, and at most 64.
ghost use Rattle.std.specs.Prelude.{◌≡◌, ◌≤◌, map, length, take};
ghost use Rattle.rules.specs.Rows.{AscendingVersions, joined_versions};
ghost use Rattle.rules.specs.Slices.{blank_version};
ghost use Rattle.rules.specs.Sources.{found as listed, at_most_64};
ghost use Rattle.rules.specs.Questions.{told};
ghost use Rattle.versions.specs.Values.{plain_version_bytes};
ghost use Rattle.modules.specs.Tables.{listing_bytes};
ghost use Rattle.source.specs.Answers.{answer_of};

use causes::cause::Cause;
use modules::listing::Listing;
use source::fault::{Fault, Found};
use source::slices::{lay, refuse};
use versions::version::PlainVersion;

// The listing that these versions are.
pub(crate) fn listing_of(versions: &[PlainVersion]) -> Listing
    requires few { length versions.now ≤ 64 }
    requires ascending { AscendingVersions (map plain_version_bytes versions.now) }
    ensures value { listing_bytes result ≡ map plain_version_bytes versions.now }
{
    Listing::new().join(versions).unwrap()
}

// A listing and the first `count` versions of a slice, joined in the slice.
pub(crate) fn lay_joined(
    listing: &Listing,
    versions: &mut [PlainVersion],
    count: usize,
) -> Result<Found, Fault>
    requires fits { count ≤ length versions.old }
    requires long { 64 ≤ length versions.old }
    ensures value { answer_of result ≡ (told blank_version (length versions.old) (at_most_64 (listed (joined_versions (listing_bytes listing.now) (map plain_version_bytes (take count versions.old)))))).answer }
    ensures items { map plain_version_bytes versions.new ≡ (told blank_version (length versions.old) (at_most_64 (listed (joined_versions (listing_bytes listing.now) (map plain_version_bytes (take count versions.old)))))).slice }
{
    match listing.join(&versions[0..count]) {
        Some(both) => {
            let joined = both.as_slice();
            lay(versions, joined, PlainVersion::blank());
            Ok(Found {
                count: joined.len(),
            })
        }
        None => refuse(versions, PlainVersion::blank(), Cause::TooManyToList),
    }
}
