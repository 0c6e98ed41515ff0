// Things in an order, and tables that ascend by a key. Nothing here knows what the things are.
// The contract of each function here is a theorem of specs/, so that the crate is proved only if the theorem is.
#![tactic(auto)]

ghost use Rattle.ordered.specs.Ascents.{AscentsRight};
ghost use Rattle.ordered.specs.Places.{PlacesRight};

pub mod order;
pub mod slices;
pub mod table;

// The place that a search answers is the one place of the key, in every list.
pub fn places_stand<T, K>()
    ensures { PlacesRight T K }
{}

// The test of ascending lists, in which the contracts of tables speak, is passed by those that ascend.
pub fn ascents_stand<T, K>()
    ensures { AscentsRight T K }
{}
