// A pile of sources from the command line. It is made of one to four buffers, the first over the rest by fallback: of a, b and c it is a fallback
// of a and of a fallback of b and c. One buffer alone has nothing above it, so that depths are those of the sources themselves.
use crate::failure::{Failure, message};
use crate::sources::{Loaded, load};
use layers::fallback::Fallback;
use source::questions::ListingSource;

const MOST: usize = 4;

const FEW: &str = "a pile has one to four sources";

// What a command asks of a pile, whatever it is made of.
// Kept: a trait, since a closure takes a pile of one type, and the type depends on how many sources there are.
pub trait Task {
    type Answer;

    fn run<S: ListingSource>(
        &self,
        rt: &HostRuntime,
        pile: &mut S,
    ) -> Result<Self::Answer, Failure>;
}

// Opens the sources in their order, stacks them, and does the task with the pile.
fn with_loaded<T: Task>(
    rt: &HostRuntime,
    loaded: &[Loaded],
    task: &T,
) -> Result<T::Answer, Failure> {
    match loaded {
        [a] => task.run(rt, &mut a.open()?),
        [a, b] => task.run(rt, &mut Fallback::new(a.open()?, b.open()?)),
        [a, b, c] => {
            let (a, b, c) = (a.open()?, b.open()?, c.open()?);
            task.run(rt, &mut Fallback::new(a, Fallback::new(b, c)))
        }
        [a, b, c, d] => {
            let (a, b, c, d) = (a.open()?, b.open()?, c.open()?, d.open()?);
            let lower = Fallback::new(c, d);
            task.run(rt, &mut Fallback::new(a, Fallback::new(b, lower)))
        }
        _ => Err(message(rt, FEW)?),
    }
}

// Reads the sources that the words name, stacks them, and does the task with the pile. Of too many words none is read.
pub fn with_pile<T: Task>(
    rt: &HostRuntime,
    words: &[&str],
    task: &T,
) -> Result<T::Answer, Failure> {
    if words.len() > MOST {
        return Err(message(rt, FEW)?);
    }
    let mut loaded = Vec::new(rt.alloc());
    for word in words {
        loaded.push(load(rt, word)?)?;
    }
    with_loaded(rt, &loaded, task)
}
