// A buffer that was accepted as a shelf or as a tree. It means what a shelf or a tree of its bytes means.
use shelf::shelf::Shelf;
use tree::tree::Tree;

pub mod opening;
pub mod questions;

#[derive(Clone, Copy)]
pub enum Kind {
    Shelf,
    Tree,
}

// Kept: a shelf and a tree are two types, each with its own invariant and meaning; what they do alike is done by `bottoms::pairs`.
#[derive(Clone, Copy)]
pub enum Buffer<'a> {
    Shelf(Shelf<'a>),
    Tree(Tree<'a>),
}
