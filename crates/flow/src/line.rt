// A formula line: an operator with its operands. Lines are named by their numbers on the sheet.
ghost use Rattle.std.specs.Prelude.{◌≡◌, true};
ghost use Rattle.flow.specs.Held.{asked_of, line_of};
ghost use Rattle.flow.specs.Line.{made as spelled, operator as headed_by};
ghost use Rattle.flow.specs.Operators.{counted, operator_of};
ghost use Rattle.flow.specs.Sheet.{right as sits, worded};

use crate::arguments::Arguments;
use crate::limits::{PREDICATES, VARIABLES};
use crate::operator::{Operator, Shape};
use crate::refusal::Refusal;

// No derived comparison: it would compare the places beyond the count of the variables too.
#[derive(Clone, Copy)]
pub enum Line {
    Predicate {
        predicate: u32,
        variables: Arguments,
    },
    And {
        left: u32,
        right: u32,
    },
    Or {
        left: u32,
        right: u32,
    },
    Not {
        line: u32,
    },
    Exists {
        variable: u32,
        line: u32,
    },
    AllNext {
        line: u32,
    },
    SomeNext {
        line: u32,
    },
    AllUntil {
        until: u32,
        goal: u32,
    },
    SomeUntil {
        until: u32,
        goal: u32,
    },
}

impl Line {
    // The line of the operator and its numbers, which the caller has counted: so by index, since slice patterns would
    // ask again what the shape says of their count.
    fn of(operator: Operator, numbers: &[u32]) -> Line
        requires { counted operator numbers.now ≡ true }
        ensures { line_of result ≡ spelled operator numbers.now }
    {
        match operator {
            Operator::Predicate => Line::Predicate {
                predicate: numbers[0],
                variables: Arguments::try_from(&numbers[1..]).unwrap(),
            },
            Operator::And => Line::And {
                left: numbers[0],
                right: numbers[1],
            },
            Operator::Or => Line::Or {
                left: numbers[0],
                right: numbers[1],
            },
            Operator::Not => Line::Not { line: numbers[0] },
            Operator::Exists => Line::Exists {
                variable: numbers[0],
                line: numbers[1],
            },
            Operator::AllNext => Line::AllNext { line: numbers[0] },
            Operator::SomeNext => Line::SomeNext { line: numbers[0] },
            Operator::AllUntil => Line::AllUntil {
                until: numbers[0],
                goal: numbers[1],
            },
            Operator::SomeUntil => Line::SomeUntil {
                until: numbers[0],
                goal: numbers[1],
            },
        }
    }

    // The line that a character and numbers ask for, wherever it may stand.
    pub(crate) fn worded(character: char, numbers: &[u32]) -> Result<Line, Refusal>
        ensures { asked_of line_of result ≡ worded (operator_of character) numbers.now }
    {
        let shape = Shape::try_from(character)?;
        if !shape.takes(numbers.len()) {
            return Err(Refusal::BadOperand);
        }
        Ok(Line::of(shape.operator, numbers))
    }

    /// The line's operator.
    // A table: each variant has an operator of its own.
    pub fn operator(&self) -> Operator
        ensures { result ≡ headed_by (line_of self.now) }
    {
        match *self {
            Line::Predicate { .. } => Operator::Predicate,
            Line::And { .. } => Operator::And,
            Line::Or { .. } => Operator::Or,
            Line::Not { .. } => Operator::Not,
            Line::Exists { .. } => Operator::Exists,
            Line::AllNext { .. } => Operator::AllNext,
            Line::SomeNext { .. } => Operator::SomeNext,
            Line::AllUntil { .. } => Operator::AllUntil,
            Line::SomeUntil { .. } => Operator::SomeUntil,
        }
    }

    // Whether the operands are right after so many lines.
    pub(crate) fn sits_after(&self, lines: u32) -> bool
        ensures { result ≡ sits lines (line_of self.now) }
    {
        match *self {
            Line::Predicate {
                predicate,
                variables,
            } => { predicate < PREDICATES && variables.as_slice().iter().all(|v| *v < VARIABLES) }
            Line::And { left, right }
            | Line::Or { left, right }
            | Line::AllUntil {
                until: left,
                goal: right,
            }
            | Line::SomeUntil {
                until: left,
                goal: right,
            } => left < lines && right < lines,
            Line::Not { line } | Line::AllNext { line } | Line::SomeNext { line } => line < lines,
            Line::Exists { variable, line } => variable < VARIABLES && line < lines,
        }
    }
}
