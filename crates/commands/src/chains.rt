// The chain to a place of a sheet: the from numbers, followed back to place 0.
ghost use Rattle.std.specs.Prelude.{◌≡◌, map, length, IfOk};
ghost use Rattle.rules.specs.Walks.{trail};
ghost use Rattle.modules.specs.Rows.{row_names};
ghost use Rattle.walks.specs.Places.{place_of};

use modules::rows::Row;
use std::alloc::{AllocError, Global};
use walks::place::Place;

// The rows from a place back to place 0. On a sheet that a walk wrote each place came from an earlier one, so that no more places are met than there are.
pub fn chain_to(heap: Global, sheet: &[Place], place: usize) -> Result<Vec<Row>, AllocError>
    ensures items { IfOk result (λ v. map row_names v.items ≡ trail (length sheet.now) (map place_of sheet.now) place) }
{
    let mut rows = Vec::new(heap);
    let mut at = place;
    // Kept: turns that are counted, since the from numbers of a sheet that no walk wrote may go round.
    for _ in 0..sheet.len() {
        let Some(here) = sheet.get(at) else {
            return Ok(rows);
        };
        rows.push(here.row)?;
        if at == 0 {
            return Ok(rows);
        }
        at = here.from;
    }
    Ok(rows)
}
