// Which texts are paths.
ghost use Rattle.std.specs.Prelude.{◌≡◌};
ghost use Rattle.rules.specs.Paths.{element_byte, is_path};
ghost use Rattle.names.specs.Scans.{at_edge, follows};

use crate::text::uses::LONGEST;

// A byte of an element: a letter, a digit, or one of four marks.
fn is_element_byte(c: char) -> bool
    ensures { result ≡ element_byte c }
{
    matches!(c, 'a'..='z' | 'A'..='Z' | '0'..='9' | '-' | '.' | '_' | '~')
}

fn is_at_edge(c: char) -> bool
    ensures { result ≡ at_edge c }
{
    matches!(c, '/' | '.')
}

// Whether `c` may stand behind `before` in a path; at its start `before` is a slash.
fn may_follow(before: char, c: char) -> bool
    ensures { result ≡ follows before c }
{
    match c {
        '/' => !is_at_edge(before),
        '.' => before != '/',
        _ => is_element_byte(c),
    }
}

// Whether a text is a path, in one pass over its bytes.
pub fn is_path_text(text: &[u8]) -> bool
    ensures { result ≡ is_path text.now }
{
    if text.len() > LONGEST {
        return false;
    }
    let mut before = '/';
    for b in text {
        let c = *b as char;
        if !may_follow(before, c) {
            return false;
        }
        before = c;
    }
    !is_at_edge(before)
}
