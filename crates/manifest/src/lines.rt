// One line of a manifest: its bytes are checked, then its shape, and then what it asks for is done.
ghost use Rattle.std.specs.Prelude.{◌≡◌, length};
ghost use Rattle.std.specs.Option.{option_map};
ghost use Rattle.std.specs.List.{list_all};
ghost use Rattle.rules.specs.Manifests.{good_byte, obeyed};
ghost use Rattle.names.specs.Paths.{path_bytes};
ghost use Rattle.lexer.specs.Told.{directive_told};
ghost use Rattle.manifest.specs.Mains.{main_told, main_read};
ghost use Rattle.manifest.specs.Views.{view, viewed, code_read};

use crate::kinds::Progress;
use crate::rows::RowsRead;
use causes::cause::Cause;
use lexer::lines::Line;
use lexer::shapes::{Directive, read_directive};
use names::path::Path;

// The most exclude rows that a manifest may have.
pub(crate) const MOST_EXCLUDED: usize = 32;

// Printable ASCII but for the double and the back quote, tab and carriage return.
// Kept: a match, since two of the printable bytes are taken out before the range is named.
fn is_good_byte(b: u8) -> bool
    ensures value { result ≡ good_byte b }
{
    match b {
        b'"' | b'`' => false,
        b'\t' | b'\r' | b' '..=b'~' => true,
        _ => false,
    }
}

fn has_good_bytes(code: &[u8]) -> bool
    ensures value { result ≡ list_all good_byte code.now }
{
    code.iter().all(|b| is_good_byte(*b))
}

// The module's path, which is checked before it is asked whether it is the only one.
fn read_main(main: Option<Path>, path: &[u8]) -> Result<Path, Cause>
    ensures value { main_told result ≡ main_read (option_map path_bytes main) path.now }
{
    let path = Path::check(path).ok_or(Cause::BadPath)?;
    if main.is_some() {
        return Err(Cause::ModuleLine);
    }
    Ok(path)
}

impl Progress {
    // Does what a line asks for.
    fn obey(
        &mut self,
        directive: Directive<'_>,
        required: &mut RowsRead<'_>,
        excluded: &mut RowsRead<'_>,
    ) -> Result<(), Cause>
        requires few { excluded.old.most ≡ 32 }
        ensures value { viewed self.new required.new excluded.new result ≡ obeyed required.old.most (view self.old required.old excluded.old) (directive_told directive.entry) }
        ensures most { (required.new.most ≡ required.old.most) × (excluded.new.most ≡ excluded.old.most) }
        ensures room { (length required.new.rows.now ≡ length required.old.rows.now) × (length excluded.new.rows.now ≡ length excluded.old.rows.now) }
        ensures same_required { required.new.rows.ghost_name ≡ required.old.rows.ghost_name }
        ensures same_excluded { excluded.new.rows.ghost_name ≡ excluded.old.rows.ghost_name }
    {
        match directive {
            Directive::Passed | Directive::Go(_) => Ok(()),
            Directive::Names(path) => {
                self.main = Some(read_main(self.main, path)?);
                Ok(())
            }
            Directive::Require(path, version) => required.add(path, version),
            Directive::Exclude(path, version) => excluded.add(path, version),
            Directive::Opens(verb) => {
                self.block = Some(verb);
                Ok(())
            }
            Directive::Closes => {
                self.block = None;
                Ok(())
            }
        }
    }

    // Reads one line more.
    pub(crate) fn read_line(
        &mut self,
        line: Line<'_>,
        required: &mut RowsRead<'_>,
        excluded: &mut RowsRead<'_>,
    ) -> Result<(), Cause>
        requires few { excluded.old.most ≡ 32 }
        ensures value { viewed self.new required.new excluded.new result ≡ code_read required.old.most (view self.old required.old excluded.old) line.entry.code.now }
        ensures most { (required.new.most ≡ required.old.most) × (excluded.new.most ≡ excluded.old.most) }
        ensures room { (length required.new.rows.now ≡ length required.old.rows.now) × (length excluded.new.rows.now ≡ length excluded.old.rows.now) }
        ensures same_required { required.new.rows.ghost_name ≡ required.old.rows.ghost_name }
        ensures same_excluded { excluded.new.rows.ghost_name ≡ excluded.old.rows.ghost_name }
    {
        if !has_good_bytes(line.code) {
            return Err(Cause::BadByte);
        }
        let directive = read_directive(self.block, line).ok_or(Cause::WrongShape)?;
        self.obey(directive, required, excluded)
    }
}
