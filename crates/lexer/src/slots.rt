// The words of a line, held without memory of their own: the first four, and whether a bracket is among them all. No shape of a line asks for
// more: one with four words or more is passed over or wrong, and there only its verb and its brackets count.
ghost use Rattle.std.specs.Prelude.{◌≡◌};
ghost use Rattle.std.specs.List.{list_any};
ghost use Rattle.rules.specs.Lines.{words};
ghost use Rattle.lexer.specs.Brackets.{bracket_byte};
ghost use Rattle.lexer.specs.Slots.{Slots};

use crate::lines::Line;
use crate::words::{Cursor, Word};

#[derive(Clone, Copy)]
pub(crate) struct LineWords<'a> {
    pub(crate) first: Option<Word<'a>>,
    pub(crate) second: Option<Word<'a>>,
    pub(crate) third: Option<Word<'a>>,
    pub(crate) fourth: Option<Word<'a>>,
    pub(crate) bracket: bool,
}

fn is_bracket(b: u8) -> bool
    ensures value { result ≡ bracket_byte b }
{
    matches!(b, b'(' | b')')
}

// Whether there is a bracket: each is a word by itself, so its byte tells.
fn has_bracket(code: &[u8]) -> bool
    ensures value { result ≡ list_any bracket_byte code.now }
{
    code.iter().any(|b| is_bracket(*b))
}

pub(crate) fn line_words<'a>(line: Line<'a>) -> LineWords<'a>
    ensures value { Slots line.entry.number (words line.entry.code.now) result }
{
    let mut cursor = Cursor::new(line);
    let first = cursor.next_word();
    let second = cursor.next_word();
    let third = cursor.next_word();
    let fourth = cursor.next_word();
    LineWords {
        first,
        second,
        third,
        fourth,
        bracket: has_bracket(line.code),
    }
}
