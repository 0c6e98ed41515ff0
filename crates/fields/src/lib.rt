// What the buffers of shelves and trees are made of. A field is a tag byte, two length bytes with the high one first, and that many bytes. In
// both kinds of buffer fields come in pairs: a path and a version, or a file name and a body.
#![tactic(auto)]

pub mod field;
pub mod opening;
pub mod pair;
