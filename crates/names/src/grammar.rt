// A kind of text, by a marker type: which texts of the kind are well formed, how any two texts stand, and what stands where there is none.
ghost use Rattle.std.specs.Prelude.{◌≡◌, ◌≤◌, Bool, true, length};
ghost use Rattle.std.specs.declared.cmp.Ordering.{Ordering};
ghost use Rattle.rules.specs.Orders.{Bytes, Laws};

use std::cmp::Ordering;

pub trait Grammar {
    // Which texts are well formed.
    ghost formed: { Bytes → Bool };

    // How the first stands to the second.
    ghost order: { Bytes → Bytes → Ordering };

    // What stands where there is no text of the kind.
    ghost blank: { Bytes };

    fn is_formed(text: &[u8]) -> bool
        ensures { result ≡ formed text.now };

    // How any two texts stand.
    fn compare(a: &[u8], b: &[u8]) -> Ordering
        ensures { result ≡ order a.now b.now };

    // The same of two texts that are well formed, where that saves work. Of others nothing is said of the answer.
    fn compare_formed(a: &[u8], b: &[u8]) -> Ordering
        ensures { formed a.now ≡ true → formed b.now ≡ true → result ≡ order a.now b.now }
    {
        Self::compare(a, b)
    }

    fn blank() -> &'static [u8]
        ensures value { result.now ≡ blank }
        ensures len { length result.now ≤ 48 };

    ghost lawful: { Laws order };

    // What is well formed can be held.
    ghost short: { (text : Bytes) → formed text ≡ true → length text ≤ 48 };
}
