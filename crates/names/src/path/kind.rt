// Paths stand by their bytes.
ghost use Rattle.std.specs.Prelude.{codes};
ghost use Rattle.rules.specs.Paths.{is_path, path_order};
ghost use Rattle.names.specs.PathLemmas.{lawful, short};

use super::Paths;
use super::checks::is_path_text;
use crate::bytes::compare_bytes;
use crate::grammar::Grammar;
use std::cmp::Ordering;

impl Grammar for Paths {
    ghost formed = { is_path };

    ghost order = { path_order };

    ghost blank = { codes "_" };

    fn is_formed(text: &[u8]) -> bool {
        is_path_text(text)
    }

    fn compare(a: &[u8], b: &[u8]) -> Ordering {
        compare_bytes(a, b)
    }

    // `_`
    fn blank() -> &'static [u8] {
        b"_"
    }

    ghost lawful = { lawful };

    ghost short = { short };
}
