// The denial of a row, walked: the rows that together cover what the row does not, none of them held.
ghost use Rattle.std.specs.Prelude.{◌≡◌};
ghost use Rattle.std.specs.Iterator.{YieldsFirst, item_count};
ghost use Rattle.std.specs.List.{slice_get};
ghost use Rattle.rows.specs.Denials.{besides, besides_left, denial, elsewhere_left, left};

use crate::row::{BOXES, Row};
use crate::variable::Variable;
use kinds::kind::Kind;
use std::ops::Range;

/// A walk through the denial of a row: first the blank rows of the other states, then, for each variable, a blank row
/// of the row's own state with each piece of its box.
pub struct Denial<K: Kind> {
    of: Row<K::Box>,
    // The states to come, and after them the next piece of the box of a variable. A place and no iterator of pieces,
    // since a kind gives its pieces by their place; the variable is counted too, since a range would have given up the
    // one whose pieces are still to come.
    states: Range<u32>,
    variable: usize,
    piece: usize,
}

// Not derived: a derive would ask of the kind itself that it may be dropped.
impl<K: Kind> Drop for Denial<K> {
    fn drop(self) {
        let Denial {
            of: _,
            states: _,
            variable: _,
            piece: _,
        } = self;
    }
}

// A blank row of the row's state with a piece of its box of a variable, or none past the last piece.
fn beside<K: Kind>(row: &Row<K::Box>, variable: Variable, piece: usize) -> Option<Row<K::Box>>
    ensures { result ≡ slice_get (besides K.model row.now variable.number) piece }
{
    let b = row.boxes[variable.number];
    let c = K::piece(&b, piece)?;
    Some(Row::blank::<K>(row.state).with_box::<K>(variable, c))
}

impl<K: Kind> Denial<K> {
    /// The denial of a row, in a graph of so many states.
    #[tactic(auto, unfolding(crate::specs::Denials::denial, crate::specs::Denials::left))]
    pub fn of(row: &Row<K::Box>, states: u32) -> Denial<K>
        ensures { left K.model result ≡ denial K.model states row.now }
    {
        Denial {
            of: *row,
            states: 0..states,
            variable: 0,
            piece: 0,
        }
    }

    // The next row of the row's own state.
    fn next_beside(&mut self) -> Option<Row<K::Box>>
        ensures next { YieldsFirst (besides_left K.model) self.old result self.new }
        ensures same { elsewhere_left K.model self.new ≡ elsewhere_left K.model self.old }
    {
        while self.variable < BOXES {
            let variable = Variable {
                number: self.variable,
            };
            if self.piece < K::PIECES
                && let Some(row) = beside::<K>(&self.of, variable, self.piece)
            {
                self.piece += 1;
                return Some(row);
            }
            self.variable += 1;
            self.piece = 0;
        }
        None
    }
}

impl<K: Kind> Iterator for Denial<K> {
    type Item = Row<K::Box>;

    ghost next_gives = { YieldsFirst (left K.model) };

    ghost remaining = { item_count (left K.model) };

    /// The next row, or none where all have come.
    fn next(&mut self) -> Option<Row<K::Box>> {
        let own = self.of.state;
        // A match: with `map` and `or_else` two goals stay open.
        match self.states.find(|state| *state != own) {
            Some(state) => Some(Row::blank::<K>(state)),
            None => self.next_beside(),
        }
    }

    // Says what the trait's own says, which would ask how large a row is: that differs from kind to kind.
    fn size_hint(&self) -> (usize, Option<usize>) {
        (0, None)
    }
}
