// What can be put in an order, the laws that every such order obeys, and the key by which a thing stands in a table.
ghost use Rattle.std.specs.Prelude.{◌≡◌, ◌⊎◌};
ghost use Rattle.std.specs.declared.cmp.Ordering.{Ordering};
ghost use Rattle.std.specs.Ordering.{ordering_reverse};
ghost use Rattle.rules.specs.Orders.{AtOrBelow};

use std::cmp::Ordering;

pub trait Ordered: Sized {
    // How the first stands to the second.
    ghost order: { Self → Self → Ordering };

    fn compare(&self, other: &Self) -> Ordering
        ensures { result ≡ order self.now other.now };

    // Of two things one is at or below the other.
    ghost total: { (x y : Self) → AtOrBelow order x y ⊎ AtOrBelow order y x };

    // Two that are each at or below the other are the same.
    ghost antisymmetric: { (x y : Self) → AtOrBelow order x y → AtOrBelow order y x → x ≡ y };

    ghost transitive: { (x y z : Self) → AtOrBelow order x y → AtOrBelow order y z → AtOrBelow order x z };

    // The answer for two is told by the answer for the two the other way round.
    ghost mirrored: { (x y : Self) → order y x ≡ ordering_reverse (order x y) };
}

// What the library's comparison, and so `<` and its kin, sets in that order.
pub trait Compared: Ordered + Ord {
    ghost compared: { (x y : Self) → Self.cmp x y ≡ Self.order x y };
}

// A thing that stands in a table by a key of the type K.
pub trait Keyed<K>: Sized {
    ghost keyed: { Self → K };

    fn key(&self) -> &K
        ensures { result.now ≡ keyed self.now };
}

// What is in an order may be its own key.
impl<T: Ordered> Keyed<T> for T {
    ghost keyed = { λ x. x };

    fn key(&self) -> &T {
        self
    }
}
