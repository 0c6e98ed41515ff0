// A line read word by word. A word is a text, which is lent from the manifest, or a bracket; each carries the number of its line.
ghost use Rattle.std.specs.Prelude.{◌≡◌, ◌≤◌, length};
ghost use Rattle.std.specs.Option.{option_map};
ghost use Rattle.std.specs.List.{prefix_len};
ghost use Rattle.rules.specs.Lines.{gap, word_byte, words};
ghost use Rattle.lexer.specs.Lefts.{but_first};
ghost use Rattle.lexer.specs.Told.{word_told, next_word};

use crate::lines::Line;

#[derive(Clone, Copy, PartialEq, Eq, Debug)]
pub enum Word<'a> {
    Text(&'a [u8], usize),
    Open(usize),
    Close(usize),
}

// What is left of a line.
#[derive(Clone, Copy)]
pub struct Cursor<'a> {
    rest: &'a [u8],
    line: usize,
}

// Space, tab or carriage return.
fn is_gap(b: u8) -> bool
    ensures value { result ≡ gap b }
{
    matches!(b, b' ' | b'\t' | b'\r')
}

// A byte of a word that is no bracket.
fn is_word_byte(b: u8) -> bool
    ensures value { result ≡ word_byte b }
{
    !(is_gap(b) || b == b'(' || b == b')')
}

// How many bytes part the next word from what was read.
fn gap_length(bytes: &[u8]) -> usize
    ensures value { (result ≡ prefix_len gap bytes.now) × (result ≤ length bytes.now) }
{
    bytes.iter().take_while(|b| is_gap(**b)).count()
}

// How many bytes the word has that begins here.
fn word_length(bytes: &[u8]) -> usize
    ensures value { (result ≡ prefix_len word_byte bytes.now) × (result ≤ length bytes.now) }
{
    bytes.iter().take_while(|b| is_word_byte(**b)).count()
}

impl<'a> Cursor<'a> {
    // All of a line's code.
    pub fn new(line: Line<'a>) -> Cursor<'a>
        ensures value { result.rest.now ≡ line.entry.code.now }
        ensures same { result.line ≡ line.entry.number }
    {
        Cursor {
            rest: line.code,
            line: line.number,
        }
    }

    // The next word, if there is one.
    // Kept: no Iterator, since the words of a line are asked for by name, four of them, and no loop goes over them.
    pub fn next_word(&mut self) -> Option<Word<'a>>
        ensures value { option_map word_told result ≡ next_word self.old.line (words self.old.rest.now) }
        ensures items { words self.new.rest.now ≡ but_first (words self.old.rest.now) }
        ensures same { self.new.line ≡ self.old.line }
    {
        let gaps = gap_length(self.rest);
        let rest = &self.rest[gaps..];
        match rest {
            [] => None,
            [b'(', after @ ..] => {
                self.rest = after;
                Some(Word::Open(self.line))
            }
            [b')', after @ ..] => {
                self.rest = after;
                Some(Word::Close(self.line))
            }
            _ => {
                let (word, after) = rest.split_at(word_length(rest));
                self.rest = after;
                Some(Word::Text(word, self.line))
            }
        }
    }
}
