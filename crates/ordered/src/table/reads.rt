// What a table says of itself. It is read as a slice is searched: from its first item on, and no further than to the key.
ghost use Rattle.std.specs.Prelude.{◌≡◌, ◌<◌, ◌≤◌, length, MatchResult};
ghost use Rattle.std.specs.Option.{option_map};
ghost use Rattle.rules.specs.Tables.{lookup};
ghost use Rattle.ordered.specs.Held.{held};
ghost use Rattle.ordered.specs.Places.{sought};

use super::Table;
use crate::order::{Keyed, Ordered};
use crate::slices::search;

impl<T, const N: usize> Table<T, N> {
    pub fn len(&self) -> usize
        ensures value { result ≡ length (held self.now) }
        ensures fits { result ≤ N }
    {
        self.count
    }

    pub fn as_slice(&self) -> &[T]
        ensures value { result.now ≡ held self.now }
        ensures fits { length result.now ≤ N }
    {
        &self.items[..self.count]
    }

    // The place of the item that has the key, or the place where it would stand.
    pub(super) fn place<K: Ordered>(&self, key: &K) -> Result<usize, usize>
    where
        T: Keyed<K>,
        ensures items { MatchResult result (λ i. i < length (held self.now)) (λ i. i ≤ length (held self.now)) }
        ensures value { result ≡ sought T.Keyed.keyed K.Ordered.order key.now (held self.now) }
        ensures fits { length (held self.now) ≤ N }
    {
        search(self.as_slice(), key)
    }

    // The item that has the key.
    pub fn lookup<K: Ordered>(&self, key: &K) -> Option<&T>
    where
        T: Keyed<K>,
        ensures value { option_map (λ x. x.now) result ≡ lookup T.Keyed.keyed K.Ordered.order key.now (held self.now) }
        ensures fits { length (held self.now) ≤ N }
    {
        let i = self.place(key).ok()?;
        Some(&self.as_slice()[i])
    }
}
