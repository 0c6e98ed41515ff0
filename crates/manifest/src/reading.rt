// Reading a whole manifest. A text of more than 32,768 bytes is not read. The lines are read one by one, and the first that is wrong is told. At
// the end no block may be open, and the module's path must have been read. What is refused leaves nothing in the lent slices.
ghost use Rattle.std.specs.Prelude.{◌≡◌, length, IfOk, OnOk};
ghost use Rattle.std.specs.Option.{option_map};
ghost use Rattle.rules.specs.Lines.{lines as lines_of};
ghost use Rattle.rules.specs.Manifests.{unbegun, lines_read, WellFormed};
ghost use Rattle.names.specs.Paths.{path_bytes};
ghost use Rattle.lexer.specs.Told.{verb_told};
ghost use Rattle.manifest.specs.Holds.{Left, Holds};
ghost use Rattle.manifest.specs.Outcomes.{outcome, finish_of, lines_told, reading_told, counted, require_rows, exclude_rows, manifest_in, asked};
ghost use Rattle.manifest.specs.Owners.{most_rows};
ghost use Rattle.manifest.specs.Views.{view};

use crate::kinds::{Manifest, Owner, Progress};
use crate::lines::MOST_EXCLUDED;
use crate::rows::RowsRead;
use crate::rows::adding::blank_all;
use causes::cause::Cause;
use causes::refusal::Refusal;
use lexer::lines::Lines;
use modules::rows::Row;

// The longest text that is read.
const LONGEST: usize = 32768;

impl Progress {
    // Reads line after line.
    fn read_lines(
        &mut self,
        text: &[u8],
        required: &mut RowsRead<'_>,
        excluded: &mut RowsRead<'_>,
    ) -> Result<(), Refusal>
        requires few { excluded.old.most ≡ 32 }
        ensures value { lines_told self.new required.new excluded.new result ≡ reading_told (lines_read required.old.most 0 (view self.old required.old excluded.old) (lines_of text.now)) }
        ensures most { (required.new.most ≡ required.old.most) × (excluded.new.most ≡ excluded.old.most) }
        ensures room { (length required.new.rows.now ≡ length required.old.rows.now) × (length excluded.new.rows.now ≡ length excluded.old.rows.now) }
        ensures same_required { required.new.rows.ghost_name ≡ required.old.rows.ghost_name }
        ensures same_excluded { excluded.new.rows.ghost_name ≡ excluded.old.rows.ghost_name }
    {
        for line in Lines::new(text) {
            self.read_line(line, required, excluded)
                .map_err(|cause| Refusal::at(cause, line.number))?;
        }
        Ok(())
    }

    // What the lines make in the end, with so many rows.
    fn finish(self, required: usize, excluded: usize) -> Result<Manifest, Refusal>
        ensures value { outcome result ≡ finish_of (option_map verb_told self.block) (option_map path_bytes self.main) required excluded }
    {
        if self.block.is_some() {
            return Err(Cause::WrongShape.into());
        }
        let main = self.main.ok_or(Cause::ModuleLine)?;
        Ok(Manifest {
            main,
            required,
            excluded,
        })
    }
}

// Reads a text that is not too long into slices that are long enough.
fn read_text(
    most: usize,
    text: &[u8],
    required: &mut [Row],
    excluded: &mut [Row],
) -> Result<Manifest, Refusal>
    requires { (Holds most 0 required.old) × (Holds 32 0 excluded.old) }
    ensures value { outcome result ≡ counted (lines_read most 0 unbegun (lines_of text.now)) }
    ensures items { OnOk result (Left required.old required.new (require_rows (lines_read most 0 unbegun (lines_of text.now))) × Left excluded.old excluded.new (exclude_rows (lines_read most 0 unbegun (lines_of text.now)))) }
{
    let mut required = RowsRead::new(required, most);
    let mut excluded = RowsRead::new(excluded, MOST_EXCLUDED);
    let mut progress = Progress {
        block: None,
        main: None,
    };
    progress.read_lines(text, &mut required, &mut excluded)?;
    progress.finish(required.count(), excluded.count())
}

// Reads a manifest: its module path and how many rows it has, or why it is refused and at which line. The rows stand in the two slices in their
// order, and blanks behind them; where the manifest is refused both are blank. A slice without room for all rows that there may be is refused
// before the text is looked at.
pub fn read(
    text: &[u8],
    owner: Owner,
    required: &mut [Row],
    excluded: &mut [Row],
) -> Result<Manifest, Refusal>
    ensures value { outcome result ≡ counted (asked owner required.old excluded.old text.now) }
    ensures items { Left required.old required.new (require_rows (asked owner required.old excluded.old text.now)) × Left excluded.old excluded.new (exclude_rows (asked owner required.old excluded.old text.now)) }
    ensures formed { IfOk result (λ m. WellFormed (most_rows owner) (manifest_in required.new excluded.new m)) }
{
    let most = owner.most();
    blank_all(required);
    blank_all(excluded);
    if required.len() < most || excluded.len() < MOST_EXCLUDED {
        return Err(Cause::SliceTooShort.into());
    }
    if text.len() > LONGEST {
        return Err(Cause::TooLong.into());
    }
    let manifest = read_text(most, text, required, excluded);
    if manifest.is_err() {
        blank_all(required);
        blank_all(excluded);
    }
    manifest
}
