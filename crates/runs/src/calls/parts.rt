// Loads that read parts of one text, which is lent to all of them.
ghost use Rattle.std.specs.Prelude.{◌≡◌};
ghost use Rattle.rules.specs.Calls.{load as load_call};
ghost use Rattle.rules.specs.Manifests.{reading};
ghost use Rattle.rules.specs.Slices.{Lent};
ghost use Rattle.runs.specs.Parts.{part_of};
ghost use Rattle.runs.specs.Told.{call_of};

use super::{Call, Part};

impl Part {
    // A load that reads this part of the text.
    pub fn load<'a>(&self, texts: &'a [u8]) -> Call<'a>
        ensures value { (n : Lent) → call_of n result ≡ load_call (reading 256 (part_of texts.now self.now.start self.now.end)) }
    {
        Call::Load(self.of(texts))
    }
}
