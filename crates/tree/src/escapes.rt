// Texts in file names: an upper-case letter is written as an exclamation mark and the lower-case letter.
ghost use Rattle.std.specs.Prelude.{◌≡◌};
ghost use Rattle.std.specs.Option.{option_map};
ghost use Rattle.names.specs.Texts.{text_bytes};
ghost use Rattle.versions.specs.Values.{plain_version_bytes};
ghost use Rattle.tree.specs.Escapes.{written, escaped, behind_mark, letter_of};
ghost use Rattle.tree.specs.Filenames.{behind, version_written};
ghost use Rattle.tree.specs.Layouts.{text_written};
ghost use Rattle.tree.specs.Views.{letter_cut_of};

use arrayvec::ArrayVec;
use names::text::Text;
use versions::version::{PlainVersion, Version};

// The longest text that is held: a path may have 48 bytes, a version 40.
const LONGEST: usize = 48;

// A byte that is written in front, and what stands behind it.
#[derive(Clone, Copy)]
pub(crate) struct Letter<'a> {
    pub(crate) byte: u8,
    pub(crate) after: &'a [u8],
}

// What stands behind a text that bytes begin with.
pub(crate) fn strip<'a>(bytes: &'a [u8], text: &[u8]) -> Option<&'a [u8]>
    ensures value { option_map (λ s. s.now) result ≡ behind text.now bytes.now }
{
    bytes.strip_prefix(text)
}

// What stands behind a byte as it is written.
fn strip_byte<'a>(bytes: &'a [u8], byte: u8) -> Option<&'a [u8]>
    ensures value { option_map (λ s. s.now) result ≡ behind (written byte) bytes.now }
{
    if byte.is_ascii_uppercase() {
        strip(bytes, &[b'!', byte + 32])
    } else {
        strip(bytes, &[byte])
    }
}

// What stands behind a text as it is written.
pub(crate) fn strip_escaped<'a>(bytes: &'a [u8], text: &[u8]) -> Option<&'a [u8]>
    ensures value { option_map (λ s. s.now) result ≡ behind (escaped text.now) bytes.now }
{
    let mut rest = bytes;
    for byte in text {
        rest = strip_byte(rest, *byte)?;
    }
    Some(rest)
}

// The upper-case letter that is written behind a mark.
fn behind_mark<'a>(bytes: &'a [u8]) -> Option<Letter<'a>>
    ensures value { option_map letter_cut_of result ≡ behind_mark bytes.now }
{
    match bytes {
        [low @ b'a'..=b'z', after @ ..] => Some(Letter {
            byte: *low - 32,
            after,
        }),
        _ => None,
    }
}

// The byte that is written in front.
fn first_letter<'a>(bytes: &'a [u8]) -> Option<Letter<'a>>
    ensures value { option_map letter_cut_of result ≡ letter_of bytes.now }
{
    match bytes {
        [] | [b'A'..=b'Z', ..] => None,
        [b'!', after @ ..] => behind_mark(after),
        [byte, after @ ..] => Some(Letter { byte: *byte, after }),
    }
}

// The text that is written, if it has at most 48 bytes.
pub(crate) fn read_text(bytes: &[u8]) -> Option<Text>
    ensures value { option_map text_bytes result ≡ text_written bytes.now }
{
    let mut text: ArrayVec<u8, LONGEST> = ArrayVec::new();
    let mut rest = bytes;
    while let Some(letter) = first_letter(rest) {
        if text.is_full() {
            return None;
        }
        text.push(letter.byte);
        rest = letter.after;
    }
    if !rest.is_empty() {
        return None;
    }
    Text::of(text.as_slice())
}

// The version that is written.
pub(crate) fn read_version(bytes: &[u8]) -> Option<PlainVersion>
    ensures value { option_map plain_version_bytes result ≡ version_written bytes.now }
{
    let text = read_text(bytes)?;
    let version = Version::check(text.as_bytes())?;
    Some(version.plain())
}
