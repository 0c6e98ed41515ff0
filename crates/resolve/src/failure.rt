// What ends a command: an answer that refuses, or what went wrong with a word, a file, memory, input or output.
ghost use Rattle.std.specs.Prelude.{IfOk};
ghost use Rattle.resolve.specs.Messages.{Says};

use causes::refusal::Refusal;
use commands::packing::NotPacked;
use source::fault::Fault;
use std::alloc::AllocError;
use std::io;
use thiserror::Error;

const USAGE: &str = "usage: resolve
       resolve tour
       resolve list MANIFEST SOURCE..
       resolve graph MANIFEST SOURCE..
       resolve why MANIFEST PATH SOURCE..
       resolve run SOURCE..
       resolve compare VERSION VERSION
       resolve check MANIFEST
       resolve show PATH VERSION SOURCE..
       resolve versions PATH SOURCE..
       resolve pack DIR FILE
A SOURCE is tree:FILE, shelf:FILE or dir:DIR.";

#[derive(Debug, Drop, Error)]
pub enum Failure {
    #[error("{0}")]
    Refused(#[from] Refusal),
    #[error("{0} is not on the list")]
    NotListed(String),
    #[error("{}", USAGE)]
    Usage,
    #[error("no path: {0}")]
    NoPath(String),
    #[error("no version: {0}")]
    NoVersion(String),
    #[error("no source (tree:FILE, shelf:FILE or dir:DIR): {0}")]
    NoSource(String),
    #[error("{file}: {error}")]
    File { file: String, error: io::Error },
    #[error("{}: {file}", words_of(*.why))]
    NotPacked { file: String, why: NotPacked },
    // in words of the caller's
    #[error("{0}")]
    Message(String),
    #[error("{0}")]
    Memory(#[from(alloc)] AllocError),
    #[error("{0}")]
    Io(#[from] io::Error),
}

// A fault of a source that was asked outside of a walk.
impl From<Fault> for Failure {
    fn from(fault: Fault) -> Failure {
        Failure::Refused(Refusal::from(fault))
    }
}

impl Failure {
    // Whether it is an answer to what was asked, where nothing went wrong.
    pub fn is_answer(&self) -> bool {
        matches!(self, Failure::Refused(_) | Failure::NotListed(_))
    }
}

fn words_of(why: NotPacked) -> &'static str {
    match why {
        NotPacked::FileTooLong => "a file of over 65535 bytes",
        NotPacked::BufferTooLong => "a tree of over 65536 bytes, with",
        NotPacked::NoMemory => "no memory for",
    }
}

// A message of these words, unless memory runs out.
pub fn message(rt: &HostRuntime, words: &str) -> Result<Failure, Failure>
    ensures value { IfOk result (λ f. Says words.now f) }
{
    let text = String::from_str(rt.alloc(), words)?;
    Ok(Failure::Message(text))
}

// A failure that names a word, unless memory runs out.
pub fn naming<F: FnOnce(String) -> Failure>(
    rt: &HostRuntime,
    word: &str,
    failure: F,
) -> Result<Failure, Failure>
    requires { F.IsAlwaysCallable failure }
{
    let word = String::from_str(rt.alloc(), word)?;
    Ok(failure(word))
}

// What went wrong with a file, unless memory runs out.
pub fn about(rt: &HostRuntime, file: &str, error: io::Error) -> Result<Failure, Failure> {
    let file = String::from_str(rt.alloc(), file)?;
    Ok(Failure::File { file, error })
}
