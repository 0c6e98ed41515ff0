// Examples that are run: what the library should do at the edges of its rules. The crate has no code of its own.
#![tactic(auto)]

#[cfg(test)]
mod asks;
#[cfg(test)]
mod manifests;
#[cfg(test)]
mod named;
#[cfg(test)]
mod orders;
#[cfg(test)]
mod piles;
#[cfg(test)]
mod projects;
#[cfg(test)]
mod sequences;
#[cfg(test)]
mod shelves;
#[cfg(test)]
mod tables;
#[cfg(test)]
mod trees;
