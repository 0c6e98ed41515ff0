// What a line asks for. Outside blocks a line is a verb with its words, or a verb and an opening bracket, which opens the verb's block; in a block
// a line has the words without the verb, and a closing bracket alone closes the block. A bracket anywhere else is a wrong shape. Lines and blocks
// of other verbs are passed over.
ghost use Rattle.std.specs.Prelude.{◌≡◌};
ghost use Rattle.std.specs.Option.{option_map};
ghost use Rattle.rules.specs.Lines.{words};
ghost use Rattle.rules.specs.Manifests.{opens_block, directive as directive_of};
ghost use Rattle.lexer.specs.Told.{word_of, verb_told, directive_told};
ghost use Rattle.lexer.specs.Shapes.{behind_words, verb_words, block_words, opening_words, closing_words, outside_words, inside_words};

use crate::lines::Line;
use crate::slots::{LineWords, line_words};
use crate::verbs::{Verb, read_verb};
use crate::words::Word;

#[derive(Clone, Copy, PartialEq, Eq, Debug)]
pub enum Directive<'a> {
    // nothing: the line has no words, or another verb
    Passed,
    // the module's path
    Names(&'a [u8]),
    // the word behind `go`
    Go(&'a [u8]),
    // a row: a path and a version
    Require(&'a [u8], &'a [u8]),
    Exclude(&'a [u8], &'a [u8]),
    Opens(Verb),
    Closes,
}

// The words behind a verb, or of a line in its block, none of them a bracket: one for `module` and `go`, two for a row, any for another verb.
fn behind_verb<'a>(
    verb: Verb,
    a: Option<Word<'a>>,
    b: Option<Word<'a>>,
    c: Option<Word<'a>>,
) -> Option<Directive<'a>>
    ensures value { option_map directive_told result ≡ behind_words (verb_told verb) (option_map word_of a.entry) (option_map word_of b.entry) (option_map word_of c.entry) }
{
    match (verb, a, b, c) {
        (Verb::Module, Some(Word::Text(path, _)), None, _) => Some(Directive::Names(path)),
        (Verb::Go, Some(Word::Text(word, _)), None, _) => Some(Directive::Go(word)),
        (Verb::Require, Some(Word::Text(path, _)), Some(Word::Text(version, _)), None) => Some(
            Directive::Require(path, version),
        ),
        (Verb::Exclude, Some(Word::Text(path, _)), Some(Word::Text(version, _)), None) => Some(
            Directive::Exclude(path, version),
        ),
        (Verb::Other, _, _, _) => Some(Directive::Passed),
        _ => None,
    }
}

// Every verb but `module` and `go` can open a block.
fn open_block<'a>(verb: Verb) -> Option<Directive<'a>>
    ensures value { option_map directive_told result ≡ opens_block (verb_told verb) }
{
    match verb {
        Verb::Module | Verb::Go => None,
        Verb::Require | Verb::Exclude | Verb::Other => Some(Directive::Opens(verb)),
    }
}

// A line outside blocks, none of its words a bracket.
fn verb_line<'a>(words: LineWords<'a>) -> Option<Directive<'a>>
    ensures value { option_map directive_told result ≡ verb_words (option_map word_of words.entry.first) (option_map word_of words.entry.second) (option_map word_of words.entry.third) (option_map word_of words.entry.fourth) }
{
    match words.first {
        Some(Word::Text(verb, _)) => behind_verb(
            read_verb(verb),
            words.second,
            words.third,
            words.fourth,
        ),
        Some(_) => None,
        None => Some(Directive::Passed),
    }
}

// A line in the block of a verb, none of its words a bracket.
fn block_line<'a>(verb: Verb, words: LineWords<'a>) -> Option<Directive<'a>>
    ensures value { option_map directive_told result ≡ block_words (verb_told verb) (option_map word_of words.entry.first) (option_map word_of words.entry.second) (option_map word_of words.entry.third) }
{
    match words.first {
        Some(_) => behind_verb(verb, words.first, words.second, words.third),
        None => Some(Directive::Passed),
    }
}

// A line outside blocks with a bracket: a verb, and an opening bracket alone.
fn opening_line<'a>(words: LineWords<'a>) -> Option<Directive<'a>>
    ensures value { option_map directive_told result ≡ opening_words (option_map word_of words.entry.first) (option_map word_of words.entry.second) (option_map word_of words.entry.third) }
{
    match (words.first, words.second, words.third) {
        (Some(Word::Text(verb, _)), Some(Word::Open(_)), None) => open_block(read_verb(verb)),
        _ => None,
    }
}

// A line in a block with a bracket: a closing bracket alone.
fn closing_line<'a>(words: LineWords<'a>) -> Option<Directive<'a>>
    ensures value { option_map directive_told result ≡ closing_words (option_map word_of words.entry.first) (option_map word_of words.entry.second) }
{
    match (words.first, words.second) {
        (Some(Word::Close(_)), None) => Some(Directive::Closes),
        _ => None,
    }
}

fn outside_block<'a>(words: LineWords<'a>) -> Option<Directive<'a>>
    ensures value { option_map directive_told result ≡ outside_words words.entry.bracket (option_map word_of words.entry.first) (option_map word_of words.entry.second) (option_map word_of words.entry.third) (option_map word_of words.entry.fourth) }
{
    if words.bracket {
        opening_line(words)
    } else {
        verb_line(words)
    }
}

fn in_block<'a>(verb: Verb, words: LineWords<'a>) -> Option<Directive<'a>>
    ensures value { option_map directive_told result ≡ inside_words (verb_told verb) words.entry.bracket (option_map word_of words.entry.first) (option_map word_of words.entry.second) (option_map word_of words.entry.third) }
{
    if words.bracket {
        closing_line(words)
    } else {
        block_line(verb, words)
    }
}

// What a line asks for, outside blocks or in the block of a verb; nothing if its shape is wrong.
pub fn read_directive<'a>(block: Option<Verb>, line: Line<'a>) -> Option<Directive<'a>>
    ensures value { option_map directive_told result ≡ directive_of (option_map verb_told block) (words line.entry.code.now) }
{
    let words = line_words(line);
    match block {
        None => outside_block(words),
        Some(verb) => in_block(verb, words),
    }
}
