// Opening a buffer: it is read once, field by field, and refused at the first fault. What may come next is said by its kind of buffer.
ghost use Rattle.std.specs.Prelude.{◌≡◌, ℕ, Bool, Result};
ghost use Rattle.rules.specs.Orders.{Bytes};
ghost use Rattle.rules.specs.Causes.{Cause as ToldCause};
ghost use Rattle.fields.specs.Openings.{opened};
ghost use Rattle.fields.specs.Views.{next_of, opening_of};

use crate::field::first_field;
use causes::cause::Cause;
use causes::refusal::Refusal;

// The longest buffer that is opened.
const LONGEST: usize = 65536;

// Which fields may come next.
pub trait Next: Copy {
    ghost follow: { Self → ℕ → Bytes → Result Self ToldCause };

    ghost ends: { Self → Bool };

    // What may come behind a field, or why that field may not stand here.
    fn behind(self, tag: u8, body: &[u8]) -> Result<Self, Cause>
        ensures value { next_of result ≡ follow self tag body.now };

    // Whether the buffer may end here.
    fn may_end(self) -> bool
        ensures value { result ≡ ends self };
}

// Accepts a buffer, or says what is wrong first and at which offset.
pub fn open_buffer<N: Next>(start: N, bytes: &[u8]) -> Result<(), Refusal>
    ensures value { opening_of result ≡ opened N.Next.follow N.Next.ends start bytes.now }
{
    if bytes.len() > LONGEST {
        return Err(Refusal::at(Cause::TooLong, 0));
    }
    let mut next = start;
    let mut rest = bytes;
    while !rest.is_empty() {
        let place = bytes.len() - rest.len();
        let field = first_field(rest).ok_or(Refusal::at(Cause::DamagedBuffer, place))?;
        next = next
            .behind(field.tag, field.body)
            .map_err(|cause| Refusal::at(cause, place))?;
        rest = field.after;
    }
    if next.may_end() {
        Ok(())
    } else {
        Err(Refusal::at(Cause::DamagedBuffer, bytes.len()))
    }
}
