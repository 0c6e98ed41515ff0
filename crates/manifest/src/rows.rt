// The rows of a manifest, as they are read into a lent slice.
ghost use Rattle.manifest.specs.Holds.{Holds};

pub(crate) mod adding;

use modules::rows::Row;

// A lent slice that at most so many rows are read into: those that are read stand in front, and blanks behind them.
#[derive(Drop)]
pub(crate) struct RowsRead<'a> {
    rows: &'a mut [Row],
    count: usize,
    most: usize,
    ghost holds: { Holds most count rows.now },
}
