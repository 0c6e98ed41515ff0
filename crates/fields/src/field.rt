// The field that bytes begin with, and what stands behind it.
ghost use Rattle.std.specs.Prelude.{◌≡◌};
ghost use Rattle.std.specs.Option.{option_map};
ghost use Rattle.fields.specs.Fields.{field_of};
ghost use Rattle.fields.specs.Views.{cut_of};

#[derive(Clone, Copy)]
pub struct Field<'a> {
    pub tag: u8,
    pub body: &'a [u8],
    pub after: &'a [u8],
}

// The first field, if a whole one stands there.
// Kept: the pattern with its else, which names the tag, the two length bytes and the rest.
pub fn first_field<'a>(bytes: &'a [u8]) -> Option<Field<'a>>
    ensures value { option_map cut_of result ≡ field_of bytes.now }
{
    let [tag, high, low, rest @ ..] = bytes else {
        return None;
    };
    let size = u16::from_be_bytes([*high, *low]) as usize;
    let (body, after) = rest.split_at_checked(size)?;
    Some(Field {
        tag: *tag,
        body,
        after,
    })
}
