// The two fields that bytes begin with, and what stands behind them.
ghost use Rattle.std.specs.Prelude.{◌≡◌};
ghost use Rattle.std.specs.Option.{option_map};
ghost use Rattle.fields.specs.Pairs.{pair_of};
ghost use Rattle.fields.specs.Views.{pair_cut_of};

use crate::field::first_field;

// Two fields, of which the first has the tag.
#[derive(Clone, Copy)]
pub struct Pair<'a> {
    pub tag: u8,
    pub first: &'a [u8],
    pub second: &'a [u8],
    pub after: &'a [u8],
}

// The first two fields, if two whole ones stand there.
pub fn first_pair<'a>(bytes: &'a [u8]) -> Option<Pair<'a>>
    ensures value { option_map pair_cut_of result ≡ pair_of bytes.now }
{
    let first = first_field(bytes)?;
    let second = first_field(first.after)?;
    Some(Pair {
        tag: first.tag,
        first: first.body,
        second: second.body,
        after: second.after,
    })
}
