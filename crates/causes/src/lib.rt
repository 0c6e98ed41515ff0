// Why a question or a call is refused, for every crate that refuses one: the causes by their names, each with the number that it is told by
// and a few words for the reader, and the refusal that carries a cause with the places it speaks of.
#![tactic(auto)]

pub mod cause;
pub mod refusal;
