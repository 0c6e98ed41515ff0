// The sources that a command line names, read into memory; a folder is packed as a tree.
use crate::check::file_bytes;
use crate::failure::{Failure, naming};
use crate::pack::tree_of;
use buffers::buffer::{Buffer, Kind};
use causes::refusal::Refusal;
use commands::arguments::{Form, argument_of};

// The bytes of a source, and the kind of buffer that they are to be.
#[derive(Drop)]
pub struct Loaded {
    pub kind: Kind,
    pub bytes: Vec<u8>,
}

impl Loaded {
    // The buffer of the bytes, or why they are none.
    pub fn open(&self) -> Result<Buffer<'_>, Refusal> {
        Buffer::open(self.kind, &self.bytes)
    }
}

// Reads the source that a word names.
pub fn load(rt: &HostRuntime, word: &str) -> Result<Loaded, Failure> {
    let argument = argument_of(word).try_ok_or_else(|| naming(rt, word, Failure::NoSource))?;
    let (kind, bytes) = match argument.form {
        Form::Tree => (Kind::Tree, file_bytes(rt, argument.place)?),
        Form::Shelf => (Kind::Shelf, file_bytes(rt, argument.place)?),
        Form::Dir => (Kind::Tree, tree_of(rt, argument.place)?),
    };
    Ok(Loaded { kind, bytes })
}
