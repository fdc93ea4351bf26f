// What the lists hold.
ghost use Rattle.std.specs.Prelude.{◌≡◌, ◌<◌, length, slice_index_or};
ghost use Rattle.lists.specs.Lent.{table_in};
ghost use Rattle.lists.specs.Tables.{at};

use crate::lists::Lists;
use crate::slot::Slot;

impl<'a, R> Lists<'a, R> {
    /// The rows of a list, in their order.
    pub fn rows(&self, list: Slot) -> &[R]
        ensures { result.now ≡ at (table_in self.now) list.number }
    {
        let start = list.number * self.limit;
        &self.rows[start..start + self.lengths[list.number]]
    }

    /// How many rows a list has.
    pub fn len(&self, list: Slot) -> usize
        ensures { result ≡ length (at (table_in self.now) list.number) }
    {
        self.lengths[list.number]
    }
}

impl<'a, R: Copy> Lists<'a, R> {
    /// The i-th row of a list.
    pub fn get(&self, list: Slot, i: usize) -> R
        requires { i < length (at (table_in self.now) list.number) }
        ensures { result ≡ slice_index_or (at (table_in self.now) list.number) i result }
    {
        self.rows(list)[i]
    }
}
