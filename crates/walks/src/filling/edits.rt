// One item more in a filling, or another in its place, and blanks behind them all.
ghost use Rattle.std.specs.Prelude.{◌≡◌, ◌<◌, ◌≤◌, [], ◌∷◌, ◌++◌, length, set};
ghost use Rattle.std.specs.List.{insert as inserted};
ghost use Rattle.rules.specs.Slices.{filled};
ghost use Rattle.walks.specs.Fillings.{items_of};

use super::Filling;
use ordered::slices::insert_at;
use source::slices::blank_from;

impl<'a, T: Copy> Filling<'a, T> {
    // No item is written.
    pub(crate) fn empty(items: &'a mut [T]) -> Filling<'a, T>
        requires { 256 ≤ length items.old }
        ensures value { items_of result ≡ [] }
        ensures same_reference { result.items.ghost_name ≡ items.entry.ghost_name }
    {
        Filling { items, count: 0 }
    }

    // Writes an item behind the others.
    pub(crate) fn push(&mut self, item: T)
        requires room { length (items_of self.old) < 256 }
        ensures after { items_of self.new ≡ items_of self.old ++ item ∷ [] }
        ensures same_reference { self.new.items.ghost_name ≡ self.old.items.ghost_name }
    {
        self.items[self.count] = item;
        self.count += 1;
    }

    // Writes an item at `at`, and those that stand from there on one place up.
    pub(crate) fn insert(&mut self, at: usize, item: T)
        requires room { length (items_of self.old) < 256 }
        requires place { at ≤ length (items_of self.old) }
        ensures after { items_of self.new ≡ inserted (items_of self.old) at item }
        ensures same_reference { self.new.items.ghost_name ≡ self.old.items.ghost_name }
    {
        insert_at(self.items, self.count, at, item);
        self.count += 1;
    }

    // Writes an item in the place of the one at `at`.
    pub(crate) fn replace(&mut self, at: usize, item: T)
        requires place { at < length (items_of self.old) }
        ensures after { items_of self.new ≡ set (items_of self.old) at item }
        ensures same_reference { self.new.items.ghost_name ≡ self.old.items.ghost_name }
    {
        self.items[at] = item;
    }

    // Writes a blank into every place behind the items.
    pub fn blank_behind(&mut self, blank: T)
        ensures after { self.new.items.now ≡ filled blank (length self.old.items.now) (items_of self.old) }
        ensures same_reference { self.new.items.ghost_name ≡ self.old.items.ghost_name }
    {
        blank_from(self.items, self.count, blank);
    }
}
