// Reading a text line by line, in one pass.
ghost use Rattle.std.specs.Prelude.{◌≡◌, ◌+◌, ◌≤◌, length, is_some, if◌then◌else◌};
ghost use Rattle.std.specs.Option.{option_map};
ghost use Rattle.std.specs.Iterator.{YieldsFirstBy, item_count};
ghost use Rattle.std.specs.List.{prefix_len};
ghost use Rattle.rules.specs.Lines.{lines, code};
ghost use Rattle.lexer.specs.Cuts.{in_line, begins_with_comment};
ghost use Rattle.lexer.specs.Lefts.{lines_left, line_told, next_line, but_first, lines_ahead};

use super::{Line, Lines};

// How many bytes stand before the first line feed, or all.
fn line_length(rest: &[u8]) -> usize
    ensures value { (result ≡ prefix_len in_line rest.now) × (result ≤ length rest.now) }
{
    rest.iter().take_while(|b| **b != b'\n').count()
}

fn begins_with_comment(bytes: &[u8]) -> bool
    ensures value { result ≡ begins_with_comment bytes.now }
{
    matches!(bytes, [b'/', b'/', ..])
}

// A line without its comment.
fn code_of<'a>(line: &'a [u8]) -> &'a [u8]
    ensures value { result.now ≡ code line.now }
{
    match (0..line.len()).find(|n| begins_with_comment(&line[*n..])) {
        Some(n) => &line[..n],
        None => line,
    }
}

impl<'a> Lines<'a> {
    // The lines of a text, none of them read.
    pub fn new(text: &'a [u8]) -> Lines<'a>
        ensures items { lines_left result ≡ lines text.now }
        ensures value { result.line ≡ 0 }
    {
        Lines {
            text,
            at: 0,
            line: 0,
        }
    }

    // The next line, if there is one.
    pub fn next_line(&mut self) -> Option<Line<'a>>
        ensures value { option_map line_told result ≡ next_line self.old.line (lines_left self.old) }
        ensures items { lines_left self.new ≡ but_first (lines_left self.old) }
        ensures after { self.new.line ≡ self.old.line + (if is_some result then 1 else 0) }
    {
        let rest = self.text.get(self.at..)?;
        let line = &rest[..line_length(rest)];
        self.line += 1;
        self.at += line.len() + 1;
        Some(Line {
            number: self.line,
            code: code_of(line),
        })
    }
}

// The lines that are left, one after the other.
impl<'a> Iterator for Lines<'a> {
    type Item = Line<'a>;

    ghost next_gives = { YieldsFirstBy line_told lines_ahead };

    ghost remaining = { item_count lines_ahead };

    fn next(&mut self) -> Option<Line<'a>> {
        self.next_line()
    }
}
