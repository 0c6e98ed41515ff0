// The door: one call on a project. A call is told as one of the rules, in slices of the lengths of those that are lent, and making it does what the
// rules say of that one.
ghost use Rattle.std.specs.Prelude.{◌≡◌, List};
ghost use Rattle.rules.specs.Calls.{does, Call as Asking};
ghost use Rattle.rules.specs.Projects.{State};
ghost use Rattle.rules.specs.Runs.{after as after_calls, fresh as fresh_state, InBounds};
ghost use Rattle.rules.specs.Slices.{Lent};
ghost use Rattle.project.specs.Projects.{state_of, pile_of};
ghost use Rattle.walks.specs.Listed.{lent, slices_of};
ghost use Rattle.runs.specs.Told.{reply_told};
ghost use Rattle.runs.specs.Law.{leaves, GoesOn};

use crate::calls::Reply;
use modules::rows::Row;
use project::project::Project;
use source::questions::Source;
use walks::place::Place;

pub mod listing;
pub mod plain;

// What can be asked of a project over sources of the type S.
pub trait Asked<S: Source>: Sized {
    ghost told: { Lent → Self → Asking };

    // Makes the call. The slices are written by list and lower alone, and every other call leaves them as they are.
    fn make(&self, project: &mut Project<S>, sheet: &mut [Place], list: &mut [Row]) -> Reply
        ensures value { reply_told result ≡ (does (pile_of S.Source.meaning project.old) (state_of project.old) (told (lent sheet.old list.old) self.now)).reply }
        ensures after { state_of project.new ≡ (does (pile_of S.Source.meaning project.old) (state_of project.old) (told (lent sheet.old list.old) self.now)).state }
        ensures items { slices_of sheet.new list.new ≡ leaves (pile_of S.Source.meaning project.old) (state_of project.old) (told (lent sheet.old list.old) self.now) (slices_of sheet.old list.old) }
        ensures same { pile_of S.Source.meaning project.new ≡ pile_of S.Source.meaning project.old }
        ensures law { (calls : List Asking) → state_of project.old ≡ after_calls (pile_of S.Source.meaning project.old) fresh_state calls → GoesOn (pile_of S.Source.meaning project.old) calls (told (lent sheet.old list.old) self.now) (reply_told result) (state_of project.new) (slices_of sheet.old list.old) (slices_of sheet.new list.new) };

    // What is read is in bounds.
    ghost bounded: { (n : Lent) (c : Self) → InBounds (told n c) };
}
