// What shelves and trees have in common: what a list of items means, how their pairs are searched, and the versions that pairs hold, put into a
// listing one by one and then given in a slice that is lent.
#![tactic(auto)]

pub mod listed;
pub mod pairs;
