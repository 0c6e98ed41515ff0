// The order that rows and module versions stand in obeys the laws. As a requirement a row stands by its path alone.
ghost use Rattle.std.specs.Prelude.{refl};
ghost use Rattle.modules.specs.Rows.{row_order, row_path, module_version_order};
ghost use Rattle.modules.specs.RowOrderedLemmas;
ghost use Rattle.modules.specs.ModuleVersionOrderedLemmas;

use super::{ModuleVersion, Row};
use names::path::PlainPath;
use ordered::order::{Compared, Keyed, Ordered};
use std::cmp::Ordering;

impl Ordered for Row {
    ghost order = { row_order };

    ghost total = { (RowOrderedLemmas.laws).total };

    ghost antisymmetric = { (RowOrderedLemmas.laws).antisymmetric };

    ghost transitive = { (RowOrderedLemmas.laws).transitive };

    ghost mirrored = { (RowOrderedLemmas.laws).mirrored };

    fn compare(&self, other: &Row) -> Ordering {
        self.cmp(other)
    }
}

impl Compared for Row {
    ghost compared = { λ x y. refl };
}

impl Ordered for ModuleVersion {
    ghost order = { module_version_order };

    ghost total = { (ModuleVersionOrderedLemmas.laws).total };

    ghost antisymmetric = { (ModuleVersionOrderedLemmas.laws).antisymmetric };

    ghost transitive = { (ModuleVersionOrderedLemmas.laws).transitive };

    ghost mirrored = { (ModuleVersionOrderedLemmas.laws).mirrored };

    fn compare(&self, other: &ModuleVersion) -> Ordering {
        self.cmp(other)
    }
}

impl Compared for ModuleVersion {
    ghost compared = { λ x y. refl };
}

impl Keyed<PlainPath> for Row {
    ghost keyed = { row_path };

    fn key(&self) -> &PlainPath {
        &self.path
    }
}
