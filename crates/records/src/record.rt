// Records and their fields.
ghost use Rattle.std.specs.Prelude.{◌≡◌, ◌≤◌, min, [], length, IfSome, unwrap_or, ◌==◌};
ghost use Rattle.records.specs.Texts.{broken, field_at, fields};
ghost use Rattle.std.specs.Option.{option_map};
ghost use Rattle.std.specs.List.{position_or_len, slice_get};

/// A record without its CRLF, and its number, from 1. Only the splitter makes one.
/// `strays` marks it as broken: a CR or LF that is not part of a CRLF, or a double quote, stands in it. The search for
/// the record's end has seen that, so that no one need look again.
#[derive(Clone, Copy, PartialEq, Eq, Debug)]
pub struct Record<'a> {
    pub(crate) text: &'a [u8],
    pub(crate) number: usize,
    pub(crate) strays: bool,
    ghost marked: { strays ≡ broken text.now },
}

/// A field: what stands between two commas, with the number of its record and its own number there, from 1.
#[derive(Clone, Copy, PartialEq, Eq, Debug)]
pub struct Field<'a> {
    pub bytes: &'a [u8],
    pub record: usize,
    pub number: u32,
}

// Where the first field of a text ends: at its comma, or with the text.
fn field_end(text: &[u8]) -> usize
    ensures at { result ≡ position_or_len (λ b. b == 44) text.now }
    ensures within { result ≤ length text.now }
{
    text.iter()
        .position(|byte| *byte == b',')
        .unwrap_or(text.len())
}

// The bytes of the field that has `skip` fields before it.
fn nth_field(text: &[u8], skip: u32) -> Option<&[u8]>
    ensures { option_map (λ x. x.now) result ≡ slice_get (fields text.now) skip }
{
    let mut bytes = text.iter();
    for _ in 0..skip {
        bytes.find(|byte| **byte == b',')?;
    }
    let rest = bytes.as_slice();
    Some(&rest[..field_end(rest)])
}

impl<'a> Record<'a> {
    /// The record's number.
    pub fn number(&self) -> usize
        ensures { result ≡ self.now.number }
    {
        self.number
    }

    /// The field of this number, where there is one.
    pub fn field(&self, number: u32) -> Option<Field<'a>>
        ensures bytes { option_map (λ f. f.bytes.now) result ≡ field_at self.now.text.now number }
        ensures record { IfSome result (λ f. f.«record» ≡ self.now.number) }
        ensures number { IfSome result (λ f. f.number ≡ number) }
    {
        let skip = number.checked_sub(1)?;
        let bytes = nth_field(self.text, skip)?;
        Some(Field {
            bytes,
            record: self.number,
            number,
        })
    }

    // How many fields there are, of which no more than `most` are counted: what stands behind those is not read.
    pub(crate) fn field_count(&self, most: usize) -> usize
        ensures { result ≡ min most (length (fields self.now.text.now)) }
    {
        self.text.split(|byte| *byte == b',').take(most).count()
    }

    // The bytes of a field. One that is not there reads as empty: either is no letter, no operator and no number, and
    // so no caller has to tell them apart.
    pub(crate) fn bytes(&self, number: u32) -> &'a [u8]
        ensures { result.now ≡ unwrap_or (field_at self.now.text.now number) [] }
    {
        self.field(number).map_or(&[], |field| field.bytes)
    }
}
