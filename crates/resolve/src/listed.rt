// The two slices that a list writes: the sheet, whose places were reached, and the rows that are selected.
use modules::rows::Row;
use std::alloc::AllocError;
use walks::counts::Counts;
use walks::place::Place;

#[derive(Drop)]
pub struct Listed {
    pub sheet: Vec<Place>,
    pub rows: Vec<Row>,
}

impl Listed {
    // Both blank, with room for the longest list.
    pub fn blank(rt: &HostRuntime) -> Result<Listed, AllocError> {
        let sheet = vec![in rt.alloc(); Place::blank(); 256]?;
        let rows = vec![in rt.alloc(); Row::blank(); 256]?;
        Ok(Listed { sheet, rows })
    }

    // Lets go of what stands behind a list.
    pub fn cut(&mut self, counts: Counts) {
        self.sheet.truncate(counts.places);
        self.rows.truncate(counts.rows);
    }
}
