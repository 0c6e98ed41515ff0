// The walk and the list, over any source. A walk writes a sheet: the main row, the rows that it starts from, and then, one place after another,
// what each place requires. The list is made from the sheet: of each path the highest version.
#![tactic(auto)]

pub mod as_row;
pub mod counts;
pub mod filling;
pub mod list;
pub mod place;
mod rows;
pub mod sheet;
pub mod start;
pub mod walk;
