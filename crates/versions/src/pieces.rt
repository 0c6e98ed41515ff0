// A text is read piece by piece from the left. A dot ends a piece; among the numbers a dash does too, and what follows it are the
// identifiers. In an identifier a dash is a byte like any other.
ghost use Rattle.versions.specs.Cuts.{Begins};

// Where a text is read.
#[derive(Clone, Copy)]
pub(crate) enum Part {
    Numbers,
    Identifiers,
}

// What ends a piece, in the order that it makes: of versions that are the same up to here, one with identifiers to come is below one that
// is over, which is below one with more pieces of the same row.
#[derive(Clone, Copy, PartialEq, Eq, PartialOrd, Ord)]
pub(crate) enum End {
    Dash,
    Last,
    Dot,
}

// Kept: what follows stands beside the end and not in it, since ends are compared by their kind alone.
#[derive(Clone, Copy)]
pub(crate) struct Piece<'a> {
    pub text: &'a [u8],
    pub end: End,
    pub rest: &'a [u8],
}

// The piece that a text begins with.
pub(crate) fn next_piece<'a>(text: &'a [u8], part: Part) -> Piece<'a>
    ensures { Begins part text.now result.text.now result.end result.rest.now }
{
    for (i, b) in text.iter().enumerate() {
        let end = match (*b as char, part) {
            ('.', _) => End::Dot,
            ('-', Part::Numbers) => End::Dash,
            _ => continue,
        };
        let rest = &text[i + 1..];
        return Piece {
            text: &text[0..i],
            end,
            rest,
        };
    }
    Piece {
        text,
        end: End::Last,
        rest: b"",
    }
}
