// Why a call on a case is refused.
ghost use Rattle.std.specs.Prelude.{◌≡◌};
ghost use Rattle.flow.specs.Refusals.{number as numbered};
ghost use Rattle.flow.specs.declared.refusal.Refusal.TheVariants.{BadLabel};

use stores::numbers::TooMany;

#[derive(Clone, Copy, PartialEq, Eq, Debug)]
pub enum Refusal {
    /// There are as many states as there may be.
    TooManyStates = 1,
    /// No state has this number.
    UnknownState = 2,
    /// The edge or the label is there already.
    AlreadyThere = 3,
    /// There are as many edges, labels or lines as there may be.
    TableFull = 4,
    /// The predicate is too large, or the values are too many.
    BadLabel = 5,
    /// The character is no operator.
    UnknownOperator = 6,
    /// The numbers of a line are too few or too many, or one of them is too large.
    BadOperand = 7,
}

impl Refusal {
    /// The refusal's number.
    pub fn number(self) -> u32
        ensures { result ≡ numbered self }
    {
        self as u32
    }
}

// Only a label's values are counted by their places: the numbers of a line are counted by its shape.
impl From<TooMany> for Refusal {
    ghost from_gives = { λ _ refusal. refusal ≡ BadLabel };

    fn from(_many: TooMany) -> Refusal {
        Refusal::BadLabel
    }
}
