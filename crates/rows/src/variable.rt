// Which variable.
ghost use Rattle.std.specs.Prelude.{◌<◌};
ghost use Rattle.flow.specs.Limits.{variables};

/// The number of a variable that there is, below `BOXES`.
#[derive(Clone, Copy, PartialEq, Eq, Debug)]
pub struct Variable {
    pub number: usize,
    ghost known: { number < variables },
}
