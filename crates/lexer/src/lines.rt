// A text that is read line by line.
ghost use Rattle.std.specs.Prelude.{◌+◌, ◌≤◌, length};

pub mod reading;

// How far a text is read: `at` is where the next line begins, and is behind the text's end once the last line is read; `line` is how many lines
// are read.
#[derive(Clone, Copy)]
pub struct Lines<'a> {
    text: &'a [u8],
    at: usize,
    line: usize,
    ghost within: { at ≤ length text.now + 1 },
    ghost counted: { line ≤ at },
}

// A line without its comment, and its number.
#[derive(Clone, Copy)]
pub struct Line<'a> {
    pub number: usize,
    pub code: &'a [u8],
}
