// Marks spread: a place from which an edge leads to a marked place is marked too, until a pass over the edges marks no more.
ghost use Rattle.std.specs.Prelude.{◌≡◌, ◌<◌, true, not, ◌&&◌, length, set as written_at, if◌then◌else◌};
ghost use Rattle.lowers.specs.Learned.{edges_in};
ghost use Rattle.lowers.specs.Spreads.{Narrow, mark_at, SpreadOnce, SpreadOut};

use super::{Edge, Learned};

// Marks the place that an edge comes from, if the one that it leads to is marked. It says whether that is new.
// Kept: a bool beside what is changed, as a set's `insert` answers.
fn spread_along(marked: &mut [bool], edge: &Edge) -> bool
    requires { (edge.now.from < length marked.old) × (edge.now.to < length marked.old) }
    ensures value { result ≡ (mark_at marked.old edge.now.to && not (mark_at marked.old edge.now.from)) }
    ensures marks { marked.new ≡ (if result then written_at marked.old edge.now.from true else marked.old) }
{
    if marked[edge.to as usize] && !marked[edge.from as usize] {
        marked[edge.from as usize] = true;
        return true;
    }
    false
}

// One pass over edges. It says whether it marked a place.
fn spread_over(marked: &mut [bool], edges: &[Edge]) -> bool
    requires { (length marked.old ≡ 256) × Narrow edges.now }
    ensures marks { SpreadOnce edges.now marked.old result marked.new }
{
    let mut more = false;
    for edge in edges {
        if spread_along(marked, edge) {
            more = true;
        }
    }
    more
}

impl Learned {
    // One pass over the edges that were learned. It says whether it marked a place.
    fn spread_once(&mut self) -> bool
        requires { Narrow (edges_in self.old) }
        ensures edges { edges_in self.new ≡ edges_in self.old }
        ensures marks { SpreadOnce (edges_in self.old) self.old.marked result self.new.marked }
    {
        spread_over(&mut self.marked, self.edges.as_slice())
    }

    // Passes over the edges until one marks no more.
    pub(crate) fn spread(&mut self)
        requires { Narrow (edges_in self.old) }
        ensures marks { SpreadOut (edges_in self.old) self.old.marked self.new.marked }
    {
        while self.spread_once() {}
    }
}
