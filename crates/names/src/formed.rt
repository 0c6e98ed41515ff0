// Texts of a kind. A plain one claims nothing and stands in the order of its kind: what tables and slices hold. A formed one is well formed.
ghost use Rattle.std.specs.Prelude.{◌≡◌, ⊤, true, Ok};
ghost use Rattle.names.specs.Texts.{text_bytes};

use crate::grammar::Grammar;
use crate::text::Text;
use std::alloc::AllocError;
use std::marker::PhantomData;

pub mod checks;
pub mod orders;

#[derive_where(Clone, Copy, PartialEq, Eq, Debug)]
pub struct Plain<G> {
    pub text: Text,
    pub of: PhantomData<G>,
}

#[derive_where(Copy, PartialEq, Eq, Debug)]
pub struct Formed<G: Grammar> {
    plain: Plain<G>,
    ghost ok: { G.formed (text_bytes plain.text) ≡ true },
}

// Kept: `Clone` is not to be derived over a ghost field.
impl<G: Grammar> Clone for Formed<G> {
    ghost is_clone = { λ x y. y ≡ x };

    ghost is_infallible = { λ _. ⊤ };

    fn clone(&self) -> Result<Self, AllocError>
        ensures { result ≡ Ok self.now }
    {
        Ok(*self)
    }
}
