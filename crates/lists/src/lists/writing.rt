// How a list is written: emptied, lengthened, copied.
ghost use Rattle.std.specs.Prelude.{◌≡◌, ◌<◌, [], ◌∷◌, ◌++◌, length};
ghost use Rattle.lists.specs.Changes.{Puts};
ghost use Rattle.lists.specs.Lent.{table_in};
ghost use Rattle.lists.specs.Tables.{at};

use crate::lists::Lists;
use crate::slot::Slot;

impl<'a, R: Copy> Lists<'a, R> {
    /// Empties a list. The lent rows stay as they are.
    pub fn clear(&mut self, list: Slot)
        ensures puts { Puts self.old self.new list.number [] }
        ensures as_they_were { self.new.rows.now ≡ self.old.rows.now }
    {
        self.lengths[list.number] = 0;
    }

    // Puts a row at the end of a list that has room for it.
    pub(super) fn push(&mut self, list: Slot, row: R)
        requires { length (at (table_in self.old) list.number) < self.old.limit }
        ensures { Puts self.old self.new list.number (at (table_in self.old) list.number ++ row ∷ []) }
    {
        let n = self.lengths[list.number];
        self.rows[list.number * self.limit + n] = row;
        self.lengths[list.number] = n + 1;
    }

    /// Makes a list just the rows of another.
    pub fn copy(&mut self, from: Slot, to: Slot)
        ensures { Puts self.old self.new to.number (at (table_in self.old) from.number) }
    {
        let count = self.lengths[from.number];
        let start = from.number * self.limit;
        self.rows
            .copy_within(start..start + count, to.number * self.limit);
        self.lengths[to.number] = count;
    }
}
