// Which texts are versions, and how texts stand to one another. What is no version stands below all that are; two that are none stand by
// their bytes, and neither is newer.
ghost use Rattle.std.specs.Prelude.{◌≡◌, true, if◌then◌else◌};
ghost use Rattle.rules.specs.Texts.{dot, every, pieces};
ghost use Rattle.rules.specs.Versions.{is_identifier, is_release, is_version, version_order, is_newer};
ghost use Rattle.versions.specs.Releases.{Behind};

use crate::kinds::{compare_pieces, is_identifier, is_number};
use crate::pieces::{End, Part, next_piece};
use std::cmp::Ordering;

const LONGEST: usize = 40;

// What stands behind the number and the dot that a text begins with.
fn behind_number<'a>(text: &'a [u8]) -> Option<&'a [u8]>
    ensures { Behind text.now result }
{
    let piece = next_piece(text, Part::Numbers);
    match (is_number(piece.text), piece.end) {
        (true, End::Dot) => Some(piece.rest),
        _ => None,
    }
}

fn are_identifiers(text: &[u8]) -> bool
    ensures { result ≡ every is_identifier (pieces dot text.now) }
{
    let mut rest = text;
    loop {
        let piece = next_piece(rest, Part::Identifiers);
        if !is_identifier(piece.text) {
            return false;
        }
        match piece.end {
            End::Dot => rest = piece.rest,
            _ => return true,
        }
    }
}

// Whether a text may follow the v.
fn is_release(text: &[u8]) -> bool
    ensures { result ≡ is_release text.now }
{
    let Some(minor) = behind_number(text) else {
        return false;
    };
    let Some(patch) = behind_number(minor) else {
        return false;
    };
    let piece = next_piece(patch, Part::Numbers);
    if !is_number(piece.text) {
        return false;
    }
    match piece.end {
        End::Dash => are_identifiers(piece.rest),
        End::Last => true,
        End::Dot => false,
    }
}

pub fn is_version(text: &[u8]) -> bool
    ensures { result ≡ is_version text.now }
{
    match text {
        [b'v', release @ ..] => text.len() <= LONGEST && is_release(release),
        _ => false,
    }
}

// How two versions stand, in one pass over both. Of other texts nothing is said of the answer.
pub(crate) fn precedence(a: &[u8], b: &[u8]) -> Ordering
    ensures { is_version a.now ≡ true → is_version b.now ≡ true → result ≡ version_order a.now b.now }
{
    let ([_, release @ ..], [_, other @ ..]) = (a, b) else {
        return Ordering::Equal;
    };
    let mut part = Part::Numbers;
    let mut left = release;
    let mut right = other;
    loop {
        let p = next_piece(left, part);
        let q = next_piece(right, part);
        match compare_pieces(p.text, q.text).then(p.end.cmp(&q.end)) {
            Ordering::Equal => {}
            unequal => return unequal,
        }
        match p.end {
            End::Dash => part = Part::Identifiers,
            End::Last => return Ordering::Equal,
            End::Dot => {}
        }
        left = p.rest;
        right = q.rest;
    }
}

// How any two texts stand.
pub fn compare(a: &[u8], b: &[u8]) -> Ordering
    ensures { result ≡ version_order a.now b.now }
{
    match (is_version(a), is_version(b)) {
        (true, true) => precedence(a, b),
        (true, false) => Ordering::Greater,
        (false, true) => Ordering::Less,
        (false, false) => a.cmp(b),
    }
}

// The newer of two texts, or the first if neither is newer: the very slice that was given.
pub fn newer<'a>(a: &'a [u8], b: &'a [u8]) -> &'a [u8]
    ensures { result ≡ (if is_newer b.now a.now then b.entry else a.entry) }
{
    if !is_version(b) {
        return a;
    }
    if !is_version(a) {
        return b;
    }
    if precedence(a, b).is_lt() { b } else { a }
}
