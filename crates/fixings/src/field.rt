// Fields: a tag of one byte, a length of two, and the contents.
ghost use Rattle.std.specs.Prelude.{◌≡◌};
ghost use Rattle.std.specs.Option.{option_map};
ghost use Rattle.fixings.specs.Fields.{split};

// A field, and the bytes after it.
#[derive(Clone, Copy, Debug, PartialEq, Eq)]
pub struct Field<'a> {
    pub tag: u8,
    pub contents: &'a [u8],
    pub rest: &'a [u8],
}

// The field at the front of the input, or none where it is cut short.
pub fn take_field<'a>(input: &'a [u8]) -> Option<Field<'a>>
    ensures { split input.now ≡ option_map (λ f. record { label = f.tag; body = f.contents.now; after = f.rest.now }) result }
{
    // A pattern, so that the header stands here as it does in the format.
    let [tag, hi, lo, rest @ ..] = input else {
        return None;
    };
    let length = usize::from(u16::from_be_bytes([*hi, *lo]));
    let (contents, rest) = rest.split_at_checked(length)?;
    Some(Field {
        tag: *tag,
        contents,
        rest,
    })
}
