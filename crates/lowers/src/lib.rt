// Lower, over any source that lists: the highest versions that can stand together where one path is held down to a version. It starts from the
// list, writes a sheet of its own under the ceilings, learns there which rows lead to a bad one, and keeps of each path the highest row that does
// not.
#![tactic(auto)]

mod ceilings;
mod edges;
mod keep;
mod learned;
pub mod lower;
pub mod lowered;
mod offers;
mod under;
mod walk;
