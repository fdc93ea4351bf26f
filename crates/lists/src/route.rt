// Which list is read, and which grows by it.
ghost use Rattle.std.specs.Prelude.{◌≢◌};

use crate::slot::Slot;

/// Two lists apart: the list that is read, and the one that rows are added to.
#[derive(Clone, Copy, PartialEq, Eq, Debug)]
pub struct Route {
    pub source: Slot,
    pub dest: Slot,
    ghost apart: { source.number ≢ dest.number },
}
