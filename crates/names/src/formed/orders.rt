// Plain and formed texts stand as their kind says.
ghost use Rattle.std.specs.Prelude.{refl};
ghost use Rattle.std.specs.Ordering.{as_partial_cmp};
ghost use Rattle.std.specs.Cmp.{partial_order_from_agreeing_total};
ghost use Rattle.names.specs.Formed.{plain_order, formed_order};
ghost use Rattle.names.specs.FormedLemmas.{plain_laws, formed_laws, plain_total, formed_total, plain_tied, formed_tied};

use super::{Formed, Plain};
use crate::grammar::Grammar;
use ordered::order::{Compared, Ordered};
use std::cmp::Ordering;

impl<G: Grammar> Ord for Plain<G> {
    ghost cmp = { plain_order G.order };

    ghost total = { plain_total G.lawful };

    ghost matches_partial_cmp = { λ x y. refl };

    ghost matches_eq = { plain_tied G.lawful };

    fn cmp(&self, other: &Plain<G>) -> Ordering {
        G::compare(self.as_bytes(), other.as_bytes())
    }
}

impl<G: Grammar> PartialOrd for Plain<G> {
    ghost partial_cmp = { as_partial_cmp (plain_order G.order) };

    ghost laws = { partial_order_from_agreeing_total (plain_order G.order) (plain_total G.lawful) (λ x y. refl) (plain_tied G.lawful) };

    fn partial_cmp(&self, other: &Plain<G>) -> Option<Ordering> {
        Some(self.cmp(other))
    }
}

impl<G: Grammar> Ordered for Plain<G> {
    ghost order = { plain_order G.order };

    ghost total = { (plain_laws G.lawful).total };

    ghost antisymmetric = { (plain_laws G.lawful).antisymmetric };

    ghost transitive = { (plain_laws G.lawful).transitive };

    ghost mirrored = { (plain_laws G.lawful).mirrored };

    fn compare(&self, other: &Plain<G>) -> Ordering {
        self.cmp(other)
    }
}

impl<G: Grammar> Compared for Plain<G> {
    ghost compared = { λ x y. refl };
}

impl<G: Grammar> Ord for Formed<G> {
    ghost cmp = { formed_order G.order };

    ghost total = { formed_total G.lawful };

    ghost matches_partial_cmp = { λ x y. refl };

    ghost matches_eq = { formed_tied G.lawful };

    fn cmp(&self, other: &Formed<G>) -> Ordering {
        G::compare_formed(self.as_bytes(), other.as_bytes())
    }
}

impl<G: Grammar> PartialOrd for Formed<G> {
    ghost partial_cmp = { as_partial_cmp (formed_order G.order) };

    ghost laws = { partial_order_from_agreeing_total (formed_order G.order) (formed_total G.lawful) (λ x y. refl) (formed_tied G.lawful) };

    fn partial_cmp(&self, other: &Formed<G>) -> Option<Ordering> {
        Some(self.cmp(other))
    }
}

impl<G: Grammar> Ordered for Formed<G> {
    ghost order = { formed_order G.order };

    ghost total = { (formed_laws G.lawful).total };

    ghost antisymmetric = { (formed_laws G.lawful).antisymmetric };

    ghost transitive = { (formed_laws G.lawful).transitive };

    ghost mirrored = { (formed_laws G.lawful).mirrored };

    fn compare(&self, other: &Formed<G>) -> Ordering {
        self.cmp(other)
    }
}

impl<G: Grammar> Compared for Formed<G> {
    ghost compared = { λ x y. refl };
}
