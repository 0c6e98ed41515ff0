// A buffer of either kind as one source, so that a pile can be made of buffers whose kinds are known only when the program runs.
#![tactic(auto)]

pub mod buffer;
