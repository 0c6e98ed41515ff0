// The rows that a walk starts from: the first `count` of an array.
// Kept: no `ArrayVec`, which makes a default for each of its places: that is 256 checks of two texts for each list and each lower. Here a blank is
// made once and copied, and the rows are written where they stay.
ghost use Rattle.std.specs.Prelude.{◌≡◌};

use modules::rows::ModuleVersion;
use std::marker::Model;

#[derive(Drop)]
pub(crate) struct Start {
    pub(super) rows: [ModuleVersion; 256],
    pub(super) count: usize,
}

impl Model for Start {
    ghost use Rattle.std.specs.Prelude.{◌≡◌, ◌≤◌, List, length, take};
    ghost use Rattle.modules.specs.declared.rows.ModuleVersion.{ModuleVersion};

    ghost Value = { List ModuleVersion };

    ghost view = { λ s. take s.count s.rows };

    ghost invariant = { λ s. (length s.rows ≡ 256) × (s.count ≤ 256) };
}

impl Start {
    pub(crate) fn as_slice(&self) -> &[ModuleVersion]
        ensures value { result.now ≡ self.now }
    {
        &self.rows[..self.count]
    }
}
