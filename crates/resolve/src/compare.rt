// How two versions stand: -1 if the first is below the second, 0 if they are the same, 1 if it is above.
ghost use Rattle.std.specs.Prelude.{◌≡◌};
ghost use Rattle.resolve.specs.Signs.{sign as signed};

use crate::ask::version_of;
use crate::failure::Failure;
use std::cmp::Ordering;

pub fn sign(o: Ordering) -> i8
    ensures { result ≡ signed o }
{
    o as i8
}

// Prints the sign for two texts, or says which of them is no version.
pub fn compare(rt: &HostRuntime, a: &str, b: &str) -> Result<(), Failure> {
    let v = version_of(rt, a)?;
    let w = version_of(rt, b)?;
    let answer = sign(v.cmp(&w));
    println!(rt; "{answer}")?;
    Ok(())
}
