// A buffer that was accepted as a shelf.
ghost use Rattle.std.specs.Prelude.{◌≡◌, true};
ghost use Rattle.shelf.specs.Grammar.{is_shelf};

#[derive(Clone, Copy)]
pub struct Shelf<'a> {
    pub(crate) bytes: &'a [u8],
    ghost ok: { is_shelf bytes.now ≡ true },
}
