// Versions stand by precedence. Two that are well formed are compared in one pass.
ghost use Rattle.std.specs.Prelude.{codes};
ghost use Rattle.rules.specs.Versions.{is_version, version_order};
ghost use Rattle.versions.specs.VersionLemmas.{lawful, short};

use super::Versions;
use crate::texts::{compare, is_version, precedence};
use names::grammar::Grammar;
use std::cmp::Ordering;

impl Grammar for Versions {
    ghost formed = { is_version };

    ghost order = { version_order };

    ghost blank = { codes "v0.0.0" };

    fn is_formed(text: &[u8]) -> bool {
        is_version(text)
    }

    fn compare(a: &[u8], b: &[u8]) -> Ordering {
        compare(a, b)
    }

    fn compare_formed(a: &[u8], b: &[u8]) -> Ordering {
        precedence(a, b)
    }

    fn blank() -> &'static [u8] {
        b"v0.0.0"
    }

    ghost lawful = { lawful };

    ghost short = { short };
}
