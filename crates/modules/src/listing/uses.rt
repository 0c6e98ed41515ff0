ghost use Rattle.std.specs.Prelude.{◌≡◌, true, false, [], map, length, is_ok, nat_lt};
ghost use Rattle.std.specs.Option.{option_map};
ghost use Rattle.ordered.specs.Held.{admitted, fitting};
ghost use Rattle.rules.specs.Rows.{own, joined_versions};
ghost use Rattle.rules.specs.Tables.{keep, lookup as at_key, entered};
ghost use Rattle.rules.specs.Versions.{version_order};
ghost use Rattle.versions.specs.Values.{plain_version_bytes};
ghost use Rattle.modules.specs.Tables.{listing_bytes};

use super::Listing;
use ordered::table::{NotInserted, Table};
use versions::version::PlainVersion;

impl Listing {
    pub fn new() -> Listing
        ensures { listing_bytes result ≡ [] }
    {
        Listing {
            table: Table::new(PlainVersion::blank()),
        }
    }

    pub fn as_slice(&self) -> &[PlainVersion]
        ensures { map plain_version_bytes result.now ≡ listing_bytes self.now }
    {
        self.table.as_slice()
    }

    // One version more. Where it is refused nothing changes.
    pub fn add(&mut self, version: PlainVersion) -> Result<(), NotInserted>
        ensures value { result ≡ admitted (at_key own version_order (plain_version_bytes version) (listing_bytes self.old)) (nat_lt (length (listing_bytes self.old)) 64) }
        ensures after { is_ok result ≡ true → listing_bytes self.new ≡ entered own version_order keep (plain_version_bytes version) (listing_bytes self.old) }
        ensures refused { is_ok result ≡ false → self.new ≡ self.old }
    {
        self.table.insert(version)
    }

    // This listing joined with other versions, unless that is more than 64.
    pub fn join(&self, other: &[PlainVersion]) -> Option<Listing>
        ensures { option_map listing_bytes result ≡ fitting 64 (joined_versions (listing_bytes self.now) (map plain_version_bytes other.now)) }
    {
        let table = self.table.join(other)?;
        Some(Listing { table })
    }
}
