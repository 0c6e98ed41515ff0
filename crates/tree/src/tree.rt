// A buffer that was accepted as a tree.
ghost use Rattle.std.specs.Prelude.{◌≡◌, true};
ghost use Rattle.tree.specs.Grammar.{is_tree};

#[derive(Clone, Copy)]
pub struct Tree<'a> {
    pub(crate) bytes: &'a [u8],
    ghost ok: { is_tree bytes.now ≡ true },
}
