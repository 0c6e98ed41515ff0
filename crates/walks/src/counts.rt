// How many places a sheet has, and how many rows the list that was made from it.
#[derive(Clone, Copy, PartialEq, Eq, Debug)]
pub struct Counts {
    pub places: usize,
    pub rows: usize,
}
