// What an accepted lower gives: how many places its sheet has and how many rows the list that it started from, and the rows that it keeps.
use modules::requirements::Requirements;
use walks::counts::Counts;

#[derive(Drop)]
pub struct Lowered {
    pub counts: Counts,
    pub kept: Requirements,
}
