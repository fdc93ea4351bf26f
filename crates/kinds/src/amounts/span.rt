// The box of the amounts.
ghost use Rattle.std.specs.Prelude.{◌≤◌};
ghost use Rattle.kinds.specs.Highest.{highest};

/// The amounts from `low` to `high`, both among them.
#[derive(Clone, Copy, PartialEq, Eq, Debug)]
pub struct Span {
    pub low: u32,
    pub high: u32,
    ghost ordered: { low ≤ high },
    ghost bounded: { high ≤ highest },
}
