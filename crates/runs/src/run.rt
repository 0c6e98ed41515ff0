// A run: calls made one after another on a fresh project.
ghost use Rattle.std.specs.Prelude.{◌≡◌, min, map, length, take};
ghost use Rattle.project.specs.Projects.{state_of, pile_of};
ghost use Rattle.walks.specs.Listed.{lent, slices_of};
ghost use Rattle.runs.specs.Told.{ToldIn};
ghost use Rattle.runs.specs.Law.{RunsBy, replies as replies_to};
ghost use Rattle.rules.specs.Runs.{fresh as fresh_state};

use crate::calls::Reply;
use crate::door::Asked;
use modules::rows::Row;
use project::project::Project;
use source::questions::Source;
use walks::place::Place;

// Makes as many of the calls as there are places for replies, on a fresh project over a pile, and gives the project back. The two slices are lent to
// every call, and what is replied to each is written in its place.
pub fn run<S: Source, C: Asked<S>>(
    pile: S,
    calls: &[C],
    sheet: &mut [Place],
    list: &mut [Row],
    replies: &mut [Option<Reply>],
) -> Project<S>
    ensures same { pile_of S.Source.meaning result ≡ S.Source.meaning pile }
    ensures law { RunsBy (S.Source.meaning pile) (map (C.Asked.told (lent sheet.old list.old)) (take (min (length calls.now) (length replies.old)) calls.now)) (state_of result) (slices_of sheet.old list.old) (slices_of sheet.new list.new) }
    ensures items { ToldIn replies.old replies.new (replies_to (S.Source.meaning pile) fresh_state (map (C.Asked.told (lent sheet.old list.old)) (take (min (length calls.now) (length replies.old)) calls.now))) }
{
    let mut project = Project::new(pile);
    let count = calls.len().min(replies.len());
    // Kept: an index, since of a slice that `iter_mut` lends element by element the length is known afterwards, and no element.
    for i in 0..count {
        replies[i] = Some(calls[i].make(&mut project, sheet, list));
    }
    project
}
