// What was learned of the places of a sheet: which are marked, and the edges from a place to those of the rows that it requires. A sheet has at
// most 256 places, so that a byte numbers one, and a place at most 64 edges.
ghost use Rattle.std.specs.Prelude.{◌≡◌, length};

use arrayvec::ArrayVec;

mod spread;
pub mod uses;

#[derive(Clone, Copy, PartialEq, Eq, Debug, Default)]
pub struct Edge {
    pub from: u8,
    pub to: u8,
}

#[derive(Drop)]
pub struct Learned {
    marked: [bool; 256],
    edges: ArrayVec<Edge, 16384>,
    ghost wide: { length marked ≡ 256 },
}
