// A table of at most N items: the first `count` places of an array. What stands in the places behind them says nothing.
// Kept: an array and a count, since an `ArrayVec` wants items that have a default; and no model, by which a table that is lent would not tell
// that it has at most N items.
ghost use Rattle.std.specs.Prelude.{◌≡◌, ◌≤◌, length};

pub mod edits;
pub mod makes;
pub mod reads;

#[derive(Drop)]
pub struct Table<T, const N: usize> {
    items: [T; N],
    count: usize,
    ghost fits: { (length items ≡ N) × (count ≤ N) },
}

// Why an item was not inserted: one with its key is there, or else there is no room.
#[derive(Clone, Copy, PartialEq, Eq, Debug)]
pub enum NotInserted {
    Present,
    Full,
}
