// Files packed into a tree buffer. A field holds at most 65,535 bytes, a buffer 65,536.
ghost use Rattle.std.specs.Prelude.{◌≡◌, ◌≤◌, true, ◌++◌, length, is_ok, MatchResult};
ghost use Rattle.fields.specs.Samples.{field};
ghost use Rattle.commands.specs.Packing.{file, Fits, Told, PackingRight};
ghost use Rattle.commands.specs.declared.packing.NotPacked.TheVariants.{NoMemory};

use std::alloc::AllocError;

// The longest field, whose length has two bytes.
const LONGEST_FIELD: usize = 65535;

// The longest buffer that can be opened.
const LONGEST_BUFFER: usize = 65536;

// Why a file is not packed.
#[derive(Clone, Copy, Debug)]
pub enum NotPacked {
    FileTooLong,
    BufferTooLong,
    NoMemory,
}

// Kept: by hand, since what a derive writes has no contract, and `refused` says of every error why it comes.
impl From<AllocError> for NotPacked {
    ghost from_gives = { λ _ r. r ≡ NoMemory };

    fn from(_e: AllocError) -> NotPacked {
        NotPacked::NoMemory
    }
}

// Appends a field: its tag, its length with the high byte first, its bytes.
fn push_field(buffer: &mut Vec<u8>, tag: u8, bytes: &[u8]) -> Result<(), AllocError>
    requires { length bytes.now ≤ 65535 }
    ensures after { is_ok result ≡ true → buffer.new.items ≡ buffer.old.items ++ field tag bytes.now }
{
    let [high, low] = (bytes.len() as u16).to_be_bytes();
    buffer.extend_from_slice(&[tag, high, low])?;
    buffer.extend_from_slice(bytes)
}

// Appends a file of a name and a body to a tree, if it fits.
#[tactic(auto, using(crate::proofs::Reread::packing_right, crate::proofs::Packed::file_length))]
pub fn push_file(buffer: &mut Vec<u8>, name: &[u8], body: &[u8]) -> Result<(), NotPacked>
    ensures after { is_ok result ≡ true → buffer.new.items ≡ buffer.old.items ++ file name.now body.now }
    ensures read { PackingRight }
    ensures refused { MatchResult result (λ _. Fits buffer.old.items name.now body.now) (λ e. Told e buffer.old.items name.now body.now) }
{
    if name.len() > LONGEST_FIELD || body.len() > LONGEST_FIELD {
        return Err(NotPacked::FileTooLong);
    }
    let room = LONGEST_BUFFER.saturating_sub(buffer.len());
    if name.len() + body.len() + 6 > room {
        return Err(NotPacked::BufferTooLong);
    }
    push_field(buffer, b'N', name)?;
    push_field(buffer, b'B', body)?;
    Ok(())
}
