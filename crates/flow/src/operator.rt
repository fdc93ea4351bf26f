// The operators of formula lines: their characters, and how many numbers a line of each has.
ghost use Rattle.std.specs.Prelude.{◌≡◌, ◌&&◌, nat_le};
ghost use Rattle.flow.specs.Operators.{character as written, operator_of, shape_of};
ghost use Rattle.flow.specs.declared.refusal.Refusal.TheVariants.{UnknownOperator};
ghost use Rattle.std.specs.Option.{option_map, ok_or};

use crate::limits::MOST_ARGUMENTS;
use crate::refusal::Refusal;

#[derive(Clone, Copy, PartialEq, Eq, Debug)]
pub enum Operator {
    /// A predicate holds of some variables: `P`.
    Predicate = b'P' as isize,
    /// Both lines hold: `&`.
    And = b'&' as isize,
    /// Either line holds: `|`.
    Or = b'|' as isize,
    /// The line does not hold: `!`.
    Not = b'!' as isize,
    /// The line holds with some value for a variable: `Q`.
    Exists = b'Q' as isize,
    /// The line holds at every successor: `X`.
    AllNext = b'X' as isize,
    /// The line holds at some successor: `N`.
    SomeNext = b'N' as isize,
    /// On every path the first line holds until the second does: `A`.
    AllUntil = b'A' as isize,
    /// On some path the first line holds until the second does: `U`.
    SomeUntil = b'U' as isize,
}

/// How a line of an operator is written: from `fewest` to `most` numbers follow it.
#[derive(Clone, Copy, PartialEq, Eq, Debug)]
pub struct Shape {
    pub operator: Operator,
    pub fewest: usize,
    pub most: usize,
}

impl Shape {
    // The operator takes just so many numbers.
    fn fixed(operator: Operator, count: usize) -> Shape
        ensures { result ≡ record { operator = operator; fewest = count; most = count } }
    {
        Shape {
            operator,
            fewest: count,
            most: count,
        }
    }

    // Whether a line of the operator may have so many numbers.
    pub(crate) fn takes(&self, count: usize) -> bool
        ensures { result ≡ (nat_le self.now.fewest count && nat_le count self.now.most) }
    {
        (self.fewest..=self.most).contains(&count)
    }
}

// The shape of the lines that begin with the character, if it is an operator.
impl TryFrom<char> for Shape {
    type Error = Refusal;

    ghost try_from_gives = { λ character result.
        result ≡ ok_or (option_map shape_of (operator_of character)) UnknownOperator };

    fn try_from(character: char) -> Result<Shape, Refusal> {
        match character {
            'P' => Ok(Shape {
                operator: Operator::Predicate,
                fewest: 1,
                most: 1 + MOST_ARGUMENTS,
            }),
            '&' => Ok(Shape::fixed(Operator::And, 2)),
            '|' => Ok(Shape::fixed(Operator::Or, 2)),
            '!' => Ok(Shape::fixed(Operator::Not, 1)),
            'Q' => Ok(Shape::fixed(Operator::Exists, 2)),
            'X' => Ok(Shape::fixed(Operator::AllNext, 1)),
            'N' => Ok(Shape::fixed(Operator::SomeNext, 1)),
            'A' => Ok(Shape::fixed(Operator::AllUntil, 2)),
            'U' => Ok(Shape::fixed(Operator::SomeUntil, 2)),
            _ => Err(Refusal::UnknownOperator),
        }
    }
}

// The operator's character.
impl From<Operator> for u8 {
    ghost from_gives = { λ operator result. result ≡ written operator };

    fn from(operator: Operator) -> u8 {
        operator as u8
    }
}
