// What a layer leaves in a lent slice: of the items that stand there those that pass a test, and blanks behind them.
ghost use Rattle.std.specs.Prelude.{◌≡◌, ◌≤◌, Bool, length, take, filter};
ghost use Rattle.rules.specs.Slices.{filled};

use source::slices::blank_from;

// A test of items. Kept: what a closure answers is told by a relation, and the clauses of `keep` filter by a function.
pub(crate) trait Test<T> {
    ghost passes: { Self → T → Bool };

    fn test(&self, item: &T) -> bool
        ensures value { result ≡ passes self.now item.now };
}

// Of the first `count` items moves those that pass to the front, and says how many.
pub(crate) fn keep<T: Copy, P: Test<T>>(
    items: &mut [T],
    count: usize,
    passing: &P,
    blank: T,
) -> usize
    requires { count ≤ length items.old }
    ensures value { result ≡ length (filter (P.Test.passes passing.now) (take count items.old)) }
    ensures items { items.new ≡ filled blank (length items.old) (filter (P.Test.passes passing.now) (take count items.old)) }
{
    // Kept: the items move within the slice, so that no iterator over it can give them.
    let mut passed = 0;
    for i in 0..count {
        let item = items[i];
        if passing.test(&item) {
            items[passed] = item;
            passed += 1;
        }
    }
    blank_from(items, passed, blank);
    passed
}
