// One item put into a table, put in the place of another, or taken out.
ghost use Rattle.std.specs.Prelude.{◌≡◌, ◌≤◌, true, false, length, is_some, is_ok, nat_lt};
ghost use Rattle.rules.specs.Tables.{keep, lookup, entered, removed};
ghost use Rattle.ordered.specs.Ascents.{is_ascending};
ghost use Rattle.ordered.specs.Held.{held, admitted, give};

use super::{NotInserted, Table};
use crate::order::{Keyed, Ordered};
use crate::slices::{insert_at, remove_at};

impl<T: Copy, const N: usize> Table<T, N> {
    // Puts an item at the place of its key. Where it is refused nothing changes.
    pub fn insert<K: Ordered>(&mut self, item: T) -> Result<(), NotInserted>
    where
        T: Keyed<K>,
        ensures value { result ≡ admitted (lookup T.Keyed.keyed K.Ordered.order (T.Keyed.keyed item) (held self.old)) (nat_lt (length (held self.old)) N) }
        ensures after { is_ok result ≡ true → held self.new ≡ entered T.Keyed.keyed K.Ordered.order keep item (held self.old) }
        ensures refused { is_ok result ≡ false → self.new ≡ self.old }
        ensures ascending { is_ascending T.Keyed.keyed K.Ordered.order (held self.old) ≡ true → is_ascending T.Keyed.keyed K.Ordered.order (held self.new) ≡ true }
        ensures fits { length (held self.new) ≤ N }
    {
        let Err(at) = self.place(item.key()) else {
            return Err(NotInserted::Present);
        };
        if self.count == N {
            return Err(NotInserted::Full);
        }
        insert_at(&mut self.items, self.count, at, item);
        self.count += 1;
        Ok(())
    }

    // Puts an item in the place of the one that has its key, and gives that one back. Where there is none nothing changes.
    pub fn replace<K: Ordered>(&mut self, item: T) -> Option<T>
    where
        T: Keyed<K>,
        ensures value { result ≡ lookup T.Keyed.keyed K.Ordered.order (T.Keyed.keyed item) (held self.old) }
        ensures after { is_some result ≡ true → held self.new ≡ entered T.Keyed.keyed K.Ordered.order give item (held self.old) }
        ensures same { is_some result ≡ false → self.new ≡ self.old }
        ensures ascending { is_ascending T.Keyed.keyed K.Ordered.order (held self.old) ≡ true → is_ascending T.Keyed.keyed K.Ordered.order (held self.new) ≡ true }
        ensures fits { length (held self.new) ≤ N }
    {
        let at = self.place(item.key()).ok()?;
        let old = self.items[at];
        self.items[at] = item;
        Some(old)
    }

    // Takes the item that has the key out, and gives it back. Where there is none nothing changes.
    pub fn remove<K: Ordered>(&mut self, key: &K) -> Option<T>
    where
        T: Keyed<K>,
        ensures value { result ≡ lookup T.Keyed.keyed K.Ordered.order key.now (held self.old) }
        ensures after { held self.new ≡ removed T.Keyed.keyed K.Ordered.order key.now (held self.old) }
        ensures same { is_some result ≡ false → self.new ≡ self.old }
        ensures ascending { is_ascending T.Keyed.keyed K.Ordered.order (held self.old) ≡ true → is_ascending T.Keyed.keyed K.Ordered.order (held self.new) ≡ true }
        ensures fits { length (held self.new) ≤ N }
    {
        let at = self.place(key).ok()?;
        let old = self.items[at];
        remove_at(&mut self.items, self.count, at);
        self.count -= 1;
        Some(old)
    }
}
