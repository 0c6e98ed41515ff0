// How an accepted shelf is read, pair by pair.
ghost use Rattle.std.specs.Prelude.{◌≡◌, ◌≤◌, true, map, length};
ghost use Rattle.std.specs.Option.{option_map};
ghost use Rattle.std.specs.List.{AllByRecursion};
ghost use Rattle.rules.specs.Names.{is_module_version};
ghost use Rattle.rules.specs.Slices.{blank, filled};
ghost use Rattle.versions.specs.Values.{plain_version_bytes};
ghost use Rattle.modules.specs.Rows.{row_names, names_of};
ghost use Rattle.fields.specs.Pairs.{pair_of, pairs_in};
ghost use Rattle.fields.specs.Views.{pair_cut_of};
ghost use Rattle.shelf.specs.Laws.{is_formed};
ghost use Rattle.shelf.specs.Records.{named, rows_at, heads, held_version, row_cut};

use crate::shelf::Shelf;
use bottoms::pairs::Pairs;
use fields::pair::{Pair, first_pair};
use modules::rows::{ModuleVersion, Row};
use source::slices::blank_from;
use versions::version::PlainVersion;

// A pair with the tag M begins a record.
impl Pairs for Shelf<'_> {
    ghost asked = { heads };

    ghost held = { held_version };

    fn is_asked(pair: Pair<'_>, of: &ModuleVersion) -> bool
        ensures value { result ≡ heads (names_of of.now) (pair_cut_of pair.entry).pair }
    {
        pair.tag == b'M' && pair.first == of.path.as_bytes() && pair.second == of.version.as_bytes()
    }

    fn version_in(pair: Pair<'_>, path: &[u8]) -> Option<PlainVersion>
        ensures value { option_map plain_version_bytes result ≡ held_version path.now (pair_cut_of pair.entry).pair }
    {
        if pair.tag == b'M' && pair.first == path {
            PlainVersion::of(pair.second)
        } else {
            None
        }
    }
}

// The first pair, if it is a row.
fn first_row<'a>(bytes: &'a [u8]) -> Option<Pair<'a>>
    ensures value { option_map pair_cut_of result ≡ row_cut (pair_of bytes.now) }
{
    first_pair(bytes).filter(|pair| pair.tag == b'R')
}

fn row_of(pair: Pair<'_>) -> Row
    requires { is_formed (pair_cut_of pair).pair ≡ true }
    ensures value { row_names result ≡ named (pair_cut_of pair.entry).pair }
{
    Row::of(pair.first, pair.second).unwrap()
}

// Copies the rows that stand in front into a slice that has room for them, and says how many they are. Blanks stand behind them.
pub(crate) fn copy_rows(bytes: &[u8], rows: &mut [Row]) -> usize
    requires { (length (rows_at (pairs_in bytes.now)) ≤ length rows.old) × (AllByRecursion (λ r. is_module_version r ≡ true) (rows_at (pairs_in bytes.now))) }
    ensures value { result ≡ length (rows_at (pairs_in bytes.now)) }
    ensures items { map row_names rows.new ≡ filled blank (length rows.old) (rows_at (pairs_in bytes.now)) }
{
    // Kept: the rows come one by one out of the bytes, and how many they are is the answer; an iterator would be a type for this loop alone.
    let mut rest = bytes;
    let mut count = 0;
    while let Some(pair) = first_row(rest) {
        rows[count] = row_of(pair);
        count += 1;
        rest = pair.after;
    }
    blank_from(rows, count, Row::blank());
    count
}
