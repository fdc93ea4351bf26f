// Which list.
ghost use Rattle.std.specs.Prelude.{◌<◌};
ghost use Rattle.lists.specs.Counts.{list_count};

/// The number of a list that there is.
#[derive(Clone, Copy, PartialEq, Eq, Debug)]
pub struct Slot {
    pub number: usize,
    ghost known: { number < list_count },
}
