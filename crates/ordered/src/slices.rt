// Slices: looked through for a key, and one item more or less among the first of their places.
ghost use Rattle.std.specs.Prelude.{◌≡◌, ◌+◌, ◌-◌, ◌<◌, ◌≤◌, length, take, drop, ◌⊎◌, MatchResult};
ghost use Rattle.std.specs.List.{insert, remove};
ghost use Rattle.ordered.specs.Places.{sought};

use crate::order::{Keyed, Ordered};
use std::cmp::Ordering;

// Ok and the place of the item that has the key, or Err and the place where it would stand, as `binary_search` answers. The slice is read from
// its first item on, and no further than to the key.
// Kept: `binary_search` answers so of a list that ascends, and this of every list.
pub fn search<T: Keyed<K>, K: Ordered>(items: &[T], key: &K) -> Result<usize, usize>
    ensures items { MatchResult result (λ i. i < length items.now) (λ i. i ≤ length items.now) }
    ensures value { result ≡ sought T.Keyed.keyed K.Ordered.order key.now items.now }
{
    for (i, item) in items.iter().enumerate() {
        match key.compare(item.key()) {
            Ordering::Less => return Err(i),
            Ordering::Equal => return Ok(i),
            Ordering::Greater => {}
        }
    }
    Err(items.len())
}

// Moves the items from `at` up to `count` up by one place, and writes `item` at `at`. Nothing is written where `at` lies behind `count`, or where
// there is no place behind the first `count`.
pub fn insert_at<T: Copy>(items: &mut [T], count: usize, at: usize, item: T)
    ensures after { at ≤ count → count < length items.old → take (count + 1) items.new ≡ insert (take count items.old) at item }
    ensures same { drop (count + 1) items.new ≡ drop (count + 1) items.old }
    ensures still { (count < at) ⊎ (length items.old ≤ count) → items.new ≡ items.old }
{
    if at <= count && count < items.len() {
        items.copy_within(at..count, at + 1);
        items[at] = item;
    }
}

// Moves the items behind `at`, up to `count`, down by one place, over the one that stands there.
pub(crate) fn remove_at<T: Copy>(items: &mut [T], count: usize, at: usize)
    requires { (at < count) × (count ≤ length items.old) }
    ensures after { take (count - 1) items.new ≡ remove (take count items.old) at }
{
    items.copy_within(at + 1..count, at);
}
