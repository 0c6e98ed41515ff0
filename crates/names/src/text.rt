// A text of at most 48 bytes, held in place. It is written in one way, so that the same text is the same value.
// Kept: an array and a length, since an `ArrayVec` is not to be copied and an `ArrayString` holds UTF-8 alone.
ghost use Rattle.names.specs.Padding.{Padded};

pub mod uses;

#[derive(Clone, Copy, Debug)]
pub struct Text {
    bytes: [u8; 48],
    len: usize,
    ghost padded: { Padded 48 bytes len },
}
