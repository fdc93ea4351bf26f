// The letters of the calls: `S` state, `E` edge, `L` label, `C` close, `F` line, `K` check.
ghost use Rattle.std.specs.Prelude.{◌≡◌};
ghost use Rattle.std.specs.Option.{ok_or};
ghost use Rattle.records.specs.Letters.{letter_of, shape};
ghost use Rattle.records.specs.declared.fault.Fault.TheVariants.{Form};

use crate::fault::Fault;

#[derive(Clone, Copy, PartialEq, Eq, Debug)]
pub enum Letter {
    State,
    Edge,
    Label,
    Close,
    Line,
    Check,
}

// No record that is a call has more fields.
pub const MOST_FIELDS: usize = 7;

// How many fields the record of a letter has, and whether the second one is an operator. The form asks for that byte,
// and the numbers begin behind it; the counts do not tell it, since those of `L` and `F` are the same.
// Not the shape of a line in flow, which counts the numbers of an operator: the two share a call of `contains`.
#[derive(Clone, Copy, PartialEq, Eq, Debug)]
pub struct Shape {
    pub least: usize,
    pub most: usize,
    pub operator: bool,
}

// The letter that a field is.
impl TryFrom<&[u8]> for Letter {
    type Error = Fault;

    ghost try_from_gives = { λ field result. result ≡ ok_or (letter_of field.now) Form };

    fn try_from(field: &[u8]) -> Result<Letter, Fault> {
        match field {
            b"S" => Ok(Letter::State),
            b"E" => Ok(Letter::Edge),
            b"L" => Ok(Letter::Label),
            b"C" => Ok(Letter::Close),
            b"F" => Ok(Letter::Line),
            b"K" => Ok(Letter::Check),
            _ => Err(Fault::Form),
        }
    }
}

impl Letter {
    pub fn shape(self) -> Shape
        ensures { result ≡ shape self }
    {
        let (least, most) = match self {
            Letter::State | Letter::Close => (1, 1),
            Letter::Check => (2, 2),
            Letter::Edge => (3, 3),
            Letter::Label | Letter::Line => (3, MOST_FIELDS),
        };
        let operator = self == Letter::Line;
        Shape {
            least,
            most,
            operator,
        }
    }
}
