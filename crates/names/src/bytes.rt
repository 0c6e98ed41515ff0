// The order of texts by their bytes: the first byte that differs decides, and a prefix is first.
ghost use Rattle.std.specs.Prelude.{◌≡◌};
ghost use Rattle.rules.specs.Orders.{dictionary};

use std::cmp::Ordering;

pub fn compare_bytes(a: &[u8], b: &[u8]) -> Ordering
    ensures { result ≡ dictionary a.now b.now }
{
    a.cmp(b)
}
