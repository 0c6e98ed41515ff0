// Layers: sources over any other sources. The exclude layer is a source without some module versions; the fallback layer asks a second source
// for what the first has not. A layer's meaning is told by the meanings below it, and is lawful where they are.
#![tactic(auto)]

pub mod exclude;
pub mod exclusions;
pub mod fallback;
mod joining;
mod slices;
