// Tables made: empty, as another is, of other items, and of two.
ghost use Rattle.std.specs.Prelude.{◌≡◌, ◌≤◌, true, [], length, take, IfSome};
ghost use Rattle.std.specs.Option.{option_map};
ghost use Rattle.rules.specs.Tables.{joined};
ghost use Rattle.ordered.specs.Ascents.{is_ascending};
ghost use Rattle.ordered.specs.Held.{held, fitting};

use super::{NotInserted, Table};
use crate::order::{Keyed, Ordered};

impl<T: Copy, const N: usize> Table<T, N> {
    // An empty table; `blank` stands in its places until they are taken.
    pub fn new(blank: T) -> Table<T, N>
        ensures value { held result ≡ [] }
    {
        Table {
            items: [blank; N],
            count: 0,
        }
    }

    // Kept: `clone` may fail, and by `Copy` a table would be copied wherever it is passed.
    pub fn copy(&self) -> Table<T, N>
        ensures value { result ≡ self.now }
        ensures fits { length (held result) ≤ N }
    {
        Table {
            items: self.items,
            count: self.count,
        }
    }

    // A copy of its places: its items, and behind them what says nothing.
    pub fn items(&self) -> [T; N]
        ensures items { take (length (held self.now)) result ≡ held self.now }
        ensures len { length result ≡ N }
        ensures fits { length (held self.now) ≤ N }
    {
        self.items
    }

    // A table of as many items as this has, the first ones of an array.
    pub fn with_items(&self, items: [T; N]) -> Table<T, N>
        ensures value { held result ≡ take (length (held self.now)) items }
        ensures fits { length (held result) ≤ N }
    {
        let count = self.count;
        Table { items, count }
    }

    // This table with each item of `other` whose key it has not, unless that is more than N items.
    pub fn join<K: Ordered>(&self, other: &[T]) -> Option<Table<T, N>>
    where
        T: Keyed<K>,
        ensures value { option_map held result ≡ fitting N (joined T.Keyed.keyed K.Ordered.order (held self.now) other.now) }
        ensures ascending { is_ascending T.Keyed.keyed K.Ordered.order (held self.now) ≡ true → IfSome result (λ t. is_ascending T.Keyed.keyed K.Ordered.order (held t) ≡ true) }
        ensures fits { IfSome result (λ t. length (held t) ≤ N) }
    {
        let mut all = self.copy();
        for item in other {
            if all.insert(*item) == Err(NotInserted::Full) {
                return None;
            }
        }
        Some(all)
    }
}
