// Why a working out stops before its end.
ghost use Rattle.std.specs.Prelude.{◌≡◌};
ghost use Rattle.logic.specs.Shortages.{number as numbered};

/// What there was no room for.
#[derive(Clone, Copy, PartialEq, Eq, Debug)]
pub enum Shortage {
    /// A row is new to a list that is full.
    Rows = 11,
    /// A witness is new, and there are as many as there may be, or as many as the table has room for.
    Witnesses = 12,
}

impl Shortage {
    /// The number of the refusal.
    pub fn number(self) -> u32
        ensures { result ≡ numbered self }
    {
        self as u32
    }
}
