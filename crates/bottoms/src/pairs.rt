// The pairs of a buffer, gone through from the first to the last: until one is found, or for the versions that they hold.
ghost use Rattle.std.specs.Prelude.{◌≡◌, Bool, Option};
ghost use Rattle.std.specs.Option.{option_map};
ghost use Rattle.rules.specs.Orders.{Bytes};
ghost use Rattle.rules.specs.Names.{ModuleVersion as Names};
ghost use Rattle.versions.specs.Values.{plain_version_bytes};
ghost use Rattle.modules.specs.Rows.{names_of};
ghost use Rattle.modules.specs.Tables.{listing_bytes};
ghost use Rattle.ordered.specs.Held.{fitting};
ghost use Rattle.fields.specs.Pairs.{Pair as ToldPair, pairs_in};
ghost use Rattle.fields.specs.Views.{pair_cut_of};
ghost use Rattle.bottoms.specs.Items.{versions_in, version_table};
ghost use Rattle.bottoms.specs.Seeking.{seen, first_from};

use crate::listed::list_held;
use fields::pair::{Pair, first_pair};
use modules::listing::Listing;
use modules::rows::ModuleVersion;
use versions::version::PlainVersion;

// How a kind of buffer reads its pairs.
pub trait Pairs {
    ghost asked: { Names → ToldPair → Bool };

    ghost held: { Bytes → ToldPair → Option Bytes };

    // Whether a pair is what is asked for, for a module version.
    fn is_asked(pair: Pair<'_>, of: &ModuleVersion) -> bool
        ensures value { result ≡ asked (names_of of.now) (pair_cut_of pair.entry).pair };

    // The version that a pair holds for a path.
    fn version_in(pair: Pair<'_>, path: &[u8]) -> Option<PlainVersion>
        ensures value { option_map plain_version_bytes result ≡ held path.now (pair_cut_of pair.entry).pair };
}

// The first pair that is asked for.
pub fn find_pair<'a, P: Pairs>(bytes: &'a [u8], of: &ModuleVersion) -> Option<Pair<'a>>
    ensures value { option_map (λ p. seen (pair_cut_of p)) result ≡ first_from (P.asked (names_of of.now)) (pairs_in bytes.now) }
{
    let mut rest = bytes;
    while let Some(pair) = first_pair(rest) {
        if P::is_asked(pair, of) {
            return Some(pair);
        }
        rest = pair.after;
    }
    None
}

// The versions that pairs hold for a path, unless they are more than 64.
pub fn list_versions<P: Pairs>(bytes: &[u8], path: &[u8]) -> Option<Listing>
    ensures value { option_map listing_bytes result ≡ fitting 64 (version_table (versions_in P.held path.now (pairs_in bytes.now))) }
{
    let mut listing = Listing::new();
    let mut rest = bytes;
    while let Some(pair) = first_pair(rest) {
        list_held(&mut listing, P::version_in(pair, path)).ok()?;
        rest = pair.after;
    }
    Some(listing)
}
