ghost use Rattle.std.specs.Prelude.{◌≡◌, ◌≤◌, length, take, Decides, nat_le};
ghost use Rattle.std.specs.Option.{option_map};
ghost use Rattle.std.specs.Bool.{then_some};
ghost use Rattle.names.specs.Padding.{Padded};
ghost use Rattle.names.specs.Texts.{text_bytes};
ghost use Rattle.std.specs.Ordering.{nat_cmp, on, as_partial_cmp};
ghost use Rattle.std.specs.Cmp.{partial_order_from_own_ties};
ghost use Rattle.std.specs.Cmp.Lexicographic.{slice_cmp};
ghost use Rattle.std.specs.Cmp.Rules.{comparing};
ghost use Rattle.std.specs.Str.{bytes_eq};
ghost use Rattle.std.proofs.Common.{rules};

use super::Text;
use std::cmp::Ordering;

// The longest text that is held.
pub const LONGEST: usize = 48;

// The bytes of a text, and zeros behind them.
fn padded(text: &[u8]) -> [u8; 48]
    requires { length text.now ≤ 48 }
    ensures shape { Padded 48 result (length text.now) }
    ensures items { take (length text.now) result ≡ text.now }
{
    let mut bytes = [0u8; 48];
    bytes[..text.len()].copy_from_slice(text);
    bytes
}

impl Text {
    // The text of these bytes, if there are at most 48.
    pub fn of(bytes: &[u8]) -> Option<Text>
        ensures { option_map text_bytes result ≡ then_some (nat_le (length bytes.now) 48) bytes.now }
    {
        if bytes.len() > LONGEST {
            return None;
        }
        Some(Text {
            bytes: padded(bytes),
            len: bytes.len(),
        })
    }

    pub fn as_bytes(&self) -> &[u8]
        ensures { result.now ≡ text_bytes self.now }
    {
        &self.bytes[0..self.len]
    }
}

// Two texts are equal exactly if they are the same value.
// Kept: a derive looks at the zeros behind the bytes too, and promises neither clause.
impl PartialEq for Text {
    ghost eq = { λ x y. bytes_eq (text_bytes x) (text_bytes y) };

    ghost laws = { Prim.search (comparing, rules) };

    fn eq(&self, other: &Text) -> bool
        ensures value { result ≡ bytes_eq (text_bytes self.now) (text_bytes other.now) }
        ensures same { Decides result (self.now ≡ other.now) }
    {
        self.as_bytes() == other.as_bytes()
    }
}

impl Eq for Text {
    ghost laws = { Prim.search (comparing, rules) };
}

// Texts stand by their bytes. Kept: a derive would go by the zeros behind the bytes and by the length.
impl Ord for Text {
    ghost cmp = { on text_bytes (slice_cmp nat_cmp) };

    ghost total = { Prim.search (comparing, rules) };

    ghost matches_partial_cmp = { Prim.search (comparing, rules) };

    ghost matches_eq = { Prim.search (comparing, rules) };

    fn cmp(&self, other: &Text) -> Ordering {
        self.as_bytes().cmp(other.as_bytes())
    }
}

impl PartialOrd for Text {
    ghost partial_cmp = { as_partial_cmp (on text_bytes (slice_cmp nat_cmp)) };

    ghost laws = { partial_order_from_own_ties (Prim.search (comparing, rules)) (Prim.search (comparing, rules)) };

    fn partial_cmp(&self, other: &Text) -> Option<Ordering> {
        Some(self.cmp(other))
    }
}
