// What a source leaves in a lent slice: what it found in front, and a blank in every place behind it. Refused, there are only blanks.
ghost use Rattle.std.specs.Prelude.{◌≡◌, ◌-◌, [], ◌++◌, length, take, replicate, is_ok, nat_le, if◌then◌else◌};
ghost use Rattle.std.specs.Result.{IfErr};
ghost use Rattle.rules.specs.Slices.{filled};
ghost use Rattle.rules.specs.Sources.{fault as no_answer};
ghost use Rattle.rules.specs.Questions.{too_short};
ghost use Rattle.causes.specs.Told.{cause_of};
ghost use Rattle.source.specs.Answers.{fault_of, answer_of};

use crate::fault::{Fault, Found};
use causes::cause::Cause;

// How many places a slice has at least in which a question is asked.
const LEAST: usize = 64;

// Writes the blank into every place from `start` on.
pub fn blank_from<T: Copy>(items: &mut [T], start: usize, blank: T)
    ensures items { items.new ≡ take start items.old ++ replicate (length items.old - start) blank }
{
    let start = start.min(items.len());
    // `fill` asks for a clone that cannot fail, and that is not known of every Copy type.
    items[start..].fill_with(|| blank);
}

// Copies others to the front, as many as there is room for, and writes the blank into every place behind them.
pub fn lay<T: Copy>(items: &mut [T], others: &[T], blank: T)
    ensures items { items.new ≡ filled blank (length items.old) (take (length items.old) others.now) }
{
    let count = others.len().min(items.len());
    items[..count].copy_from_slice(&others[..count]);
    blank_from(items, count, blank);
}

// The fault of a question that is refused here, and leaves nothing but blanks.
fn blanked<T: Copy>(items: &mut [T], blank: T, cause: Cause) -> Fault
    ensures value { fault_of result ≡ record { cause = cause_of cause; place = 0; depth = 0 } }
    ensures items { items.new ≡ filled blank (length items.old) [] }
{
    blank_from(items, 0, blank);
    Fault::from(cause)
}

// A question that is refused here, and leaves nothing but blanks.
pub fn refuse<T: Copy>(items: &mut [T], blank: T, cause: Cause) -> Result<Found, Fault>
    ensures value { answer_of result ≡ no_answer (record { cause = cause_of cause; place = 0; depth = 0 }) }
    ensures items { items.new ≡ filled blank (length items.old) [] }
{
    Err(blanked(items, blank, cause))
}

// Refuses a slice that is too short for a question, and leaves nothing but blanks in it. Any other stays as it is.
pub fn check_room<T: Copy>(items: &mut [T], blank: T) -> Result<(), Fault>
    ensures long { is_ok result ≡ nat_le 64 (length items.old) }
    ensures value { IfErr result (λ f. fault_of f ≡ too_short) }
    ensures items { items.new ≡ (if is_ok result then items.old else filled blank (length items.old) []) }
{
    if items.len() < LEAST {
        return Err(blanked(items, blank, Cause::SliceTooShort));
    }
    Ok(())
}
