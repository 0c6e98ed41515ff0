// What a piece of a version may be, and how two pieces stand. A number is 0, or digits with no zero in front. A word is one or more
// letters, digits and dashes, not all digits. Numbers stand by their value, below all words; words stand by their bytes.
ghost use Rattle.std.specs.Prelude.{◌≡◌, true};
ghost use Rattle.rules.specs.Orders.{number_order};
ghost use Rattle.std.specs.List.{list_all};
ghost use Rattle.rules.specs.Texts.{digit};
ghost use Rattle.rules.specs.Versions.{identifier_byte, is_number, is_identifier, value, identifier, identifier_order};

use std::cmp::Ordering;

fn is_digit(b: u8) -> bool
    ensures { result ≡ digit b }
{
    b.is_ascii_digit()
}

fn is_identifier_byte(b: u8) -> bool
    ensures { result ≡ identifier_byte b }
{
    b.is_ascii_alphanumeric() || b == b'-'
}

fn are_digits(piece: &[u8]) -> bool
    ensures { result ≡ list_all digit piece.now }
{
    piece.iter().all(|b| is_digit(*b))
}

fn are_identifier_bytes(piece: &[u8]) -> bool
    ensures { result ≡ list_all identifier_byte piece.now }
{
    piece.iter().all(|b| is_identifier_byte(*b))
}

#[tactic(auto, using(crate::proofs::Tested::all_every))]
pub fn is_number(piece: &[u8]) -> bool
    ensures { result ≡ is_number piece.now }
{
    match piece {
        [] | [b'0', _, ..] => false,
        _ => are_digits(piece),
    }
}

#[tactic(auto, using(crate::proofs::Tested::all_every))]
pub fn is_identifier(piece: &[u8]) -> bool
    ensures { result ≡ is_identifier piece.now }
{
    if are_digits(piece) {
        is_number(piece)
    } else {
        are_identifier_bytes(piece)
    }
}

// No number has a zero in front, so of two numbers the longer is the greater, and of as many digits the first that differ decide.
fn compare_numbers(a: &[u8], b: &[u8]) -> Ordering
    ensures { is_number a.now ≡ true → is_number b.now ≡ true → result ≡ number_order (value 0 a.now) (value 0 b.now) }
{
    a.len().cmp(&b.len()).then(a.cmp(b))
}

pub(crate) fn compare_pieces(a: &[u8], b: &[u8]) -> Ordering
    ensures { is_identifier a.now ≡ true → is_identifier b.now ≡ true → result ≡ identifier_order (identifier a.now) (identifier b.now) }
{
    match (is_number(a), is_number(b)) {
        (true, true) => compare_numbers(a, b),
        (true, false) => Ordering::Less,
        (false, true) => Ordering::Greater,
        (false, false) => a.cmp(b),
    }
}
