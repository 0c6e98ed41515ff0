// Reading rows into a lent slice, one by one.
ghost use Rattle.std.specs.Prelude.{◌≡◌, length, replicate};
ghost use Rattle.rules.specs.Slices.{blank};
ghost use Rattle.manifest.specs.Holds.{names_in, Holds};
ghost use Rattle.manifest.specs.Rows.{row_told, row_read, rows_read, rows_told, row_put, row_added};

use super::RowsRead;
use causes::cause::Cause;
use modules::rows::Row;
use names::path::Path;
use versions::version::Version;

// Makes every row blank.
pub(crate) fn blank_all(rows: &mut [Row])
    ensures items { names_in rows.new ≡ replicate (length rows.old) blank }
{
    rows.fill(Row::blank());
}

// The row of two words, checked from left to right.
fn read_row(path: &[u8], version: &[u8]) -> Result<Row, Cause>
    ensures value { row_told result ≡ row_read path.now version.now }
{
    let path = Path::check(path).ok_or(Cause::BadPath)?;
    let version = Version::check(version).ok_or(Cause::BadVersion)?;
    Ok(Row {
        path: path.plain(),
        version: version.plain(),
    })
}

impl<'a> RowsRead<'a> {
    // No rows yet, in a slice of blanks that has room for all.
    pub(crate) fn new(rows: &'a mut [Row], most: usize) -> RowsRead<'a>
        requires { Holds most 0 rows.old }
        ensures value { (result.count ≡ 0) × (result.most ≡ most) }
        ensures same { result.rows.now ≡ rows.old }
        ensures same_reference { result.rows.ghost_name ≡ rows.entry.ghost_name }
    {
        RowsRead {
            rows,
            count: 0,
            most,
        }
    }

    // How many rows are read.
    pub(crate) fn count(&self) -> usize
        ensures value { result ≡ self.now.count }
    {
        self.count
    }

    // A row behind the others, if there may be one more.
    fn push(&mut self, row: Row) -> Result<(), Cause>
        ensures value { rows_told self.new result ≡ row_put self.old.most (rows_read self.old) row }
        ensures same { self.new.most ≡ self.old.most }
        ensures room { length self.new.rows.now ≡ length self.old.rows.now }
        ensures same_reference { self.new.rows.ghost_name ≡ self.old.rows.ghost_name }
    {
        if self.count == self.most {
            return Err(Cause::RowTooMany);
        }
        self.rows[self.count] = row;
        self.count += 1;
        Ok(())
    }

    // Reads one row more: it is checked first, and then there must be room for it.
    pub(crate) fn add(&mut self, path: &[u8], version: &[u8]) -> Result<(), Cause>
        ensures value { rows_told self.new result ≡ row_added self.old.most (rows_read self.old) path.now version.now }
        ensures same { self.new.most ≡ self.old.most }
        ensures room { length self.new.rows.now ≡ length self.old.rows.now }
        ensures same_reference { self.new.rows.ghost_name ≡ self.old.rows.ghost_name }
    {
        let row = read_row(path, version)?;
        self.push(row)
    }
}
