// Which values are well formed.
ghost use Rattle.std.specs.Prelude.{◌≡◌, true, length, nat_le};
ghost use Rattle.std.specs.Option.{option_map};
ghost use Rattle.std.specs.Bool.{then_some};
ghost use Rattle.names.specs.Formed.{plain_bytes, formed_bytes};

use super::{Formed, Plain};
use crate::grammar::Grammar;
use crate::text::Text;
use std::marker::PhantomData;

impl<G: Grammar> Plain<G> {
    // The plain text of these bytes, if there are at most 48.
    pub fn of(bytes: &[u8]) -> Option<Plain<G>>
        ensures { option_map plain_bytes result ≡ then_some (nat_le (length bytes.now) 48) bytes.now }
    {
        let text = Text::of(bytes)?;
        Some(Plain {
            text,
            of: PhantomData,
        })
    }

    // What stands where there is none.
    pub fn blank() -> Plain<G>
        ensures { plain_bytes result ≡ G.blank }
    {
        Plain::of(G::blank()).unwrap()
    }

    pub fn as_bytes(&self) -> &[u8]
        ensures { result.now ≡ plain_bytes self.now }
    {
        self.text.as_bytes()
    }

    // The formed text that this is, if it is well formed.
    pub fn check(&self) -> Option<Formed<G>>
        ensures { option_map (λ x. x.plain) result ≡ then_some (G.formed (plain_bytes self.now)) self.now }
    {
        if !G::is_formed(self.as_bytes()) {
            return None;
        }
        Some(Formed { plain: *self })
    }
}

impl<G: Grammar> Formed<G> {
    // The formed text of these bytes, if they are one.
    pub fn check(bytes: &[u8]) -> Option<Formed<G>>
        ensures { option_map formed_bytes result ≡ then_some (G.formed bytes.now) bytes.now }
    {
        Plain::of(bytes)?.check()
    }

    pub fn plain(&self) -> Plain<G>
        ensures { result ≡ self.now.plain }
    {
        self.plain
    }

    pub fn as_bytes(&self) -> &[u8]
        ensures value { result.now ≡ formed_bytes self.now }
        ensures formed { G.formed result.now ≡ true }
    {
        self.plain.as_bytes()
    }
}
