// How the program says things: a text as it stands, a row as PATH VERSION, a place as PLACE PATH VERSION FROM.
use crate::failure::Failure;
use modules::rows::Row;
use std::fmt;
use walks::place::Place;

// Bytes as text; every byte that the library prints is ASCII.
#[derive(Clone, Copy)]
pub struct Ascii<'a>(pub &'a [u8]);

impl fmt::Display for Ascii<'_> {
    fn fmt<W: fmt::Write>(&self, f: &mut fmt::Formatter<W>) -> fmt::Result {
        for b in self.0 {
            f.write_char(*b as char)?;
        }
        Ok(())
    }
}

// A row as its path and its version.
#[derive(Clone, Copy)]
pub struct Shown<'a>(pub &'a Row);

impl fmt::Display for Shown<'_> {
    fn fmt<W: fmt::Write>(&self, f: &mut fmt::Formatter<W>) -> fmt::Result {
        let path = Ascii(self.0.path.as_bytes());
        let version = Ascii(self.0.version.as_bytes());
        write!(f, "{path} {version}")
    }
}

// The first so many of some items.
pub fn first<T>(items: &[T], count: usize) -> &[T] {
    &items[..count.min(items.len())]
}

// Rows, a line each, behind the same words.
pub fn print_rows(rt: &HostRuntime, words: &str, rows: &[Row]) -> Result<(), Failure> {
    for row in rows {
        println!(rt; "{words}{}", Shown(row))?;
    }
    Ok(())
}

// Places, a line each.
pub fn print_sheet(rt: &HostRuntime, sheet: &[Place]) -> Result<(), Failure> {
    for (i, place) in sheet.iter().enumerate() {
        println!(rt; "{i} {} {}", Shown(&place.row), place.from)?;
    }
    Ok(())
}
