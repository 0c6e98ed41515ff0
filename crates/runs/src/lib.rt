// Calls as values, one made after another: each answer, the project and the slices after it are what the rules make of the calls so far and of what
// the pile means, and the law over runs holds at every point.
#![tactic(auto)]

pub mod calls;
pub mod door;
pub mod replies;
pub mod run;
