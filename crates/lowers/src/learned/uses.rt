ghost use Rattle.std.specs.Prelude.{◌≡◌, ◌<◌, true, false, [], ◌∷◌, ◌++◌, length, set as written_at, replicate};
ghost use Rattle.lowers.specs.Learned.{edges_in, is_marked as mark_at};

use super::{Edge, Learned};
use arrayvec::ArrayVec;

impl Learned {
    // Of nothing.
    pub fn new() -> Learned
        ensures marks { result.marked ≡ replicate 256 false }
        ensures edges { edges_in result ≡ [] }
    {
        Learned {
            marked: [false; 256],
            edges: ArrayVec::new(),
        }
    }

    // Whether a place is marked.
    pub(crate) fn is_marked(&self, at: usize) -> bool
        requires { at < 256 }
        ensures value { result ≡ mark_at self.now at }
    {
        self.marked[at]
    }

    // Marks a place.
    pub(crate) fn mark(&mut self, at: usize)
        requires { at < 256 }
        ensures marks { self.new.marked ≡ written_at self.old.marked at true }
        ensures edges { edges_in self.new ≡ edges_in self.old }
    {
        self.marked[at] = true;
    }

    // One edge more.
    pub(crate) fn add(&mut self, from: usize, to: usize)
        requires room { length (edges_in self.old) < 16384 }
        requires places { (from < 256) × (to < 256) }
        ensures marks { self.new.marked ≡ self.old.marked }
        ensures edges { edges_in self.new ≡ edges_in self.old ++ record { from = from; to = to } ∷ [] }
    {
        self.edges.push(Edge {
            from: from as u8,
            to: to as u8,
        });
    }
}
