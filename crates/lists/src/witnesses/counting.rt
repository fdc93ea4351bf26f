// How many witnesses there are.
ghost use Rattle.std.specs.Prelude.{◌≡◌, [], length};
ghost use Rattle.lists.specs.Formed.{formed_in};

use crate::witnesses::Witnesses;

impl<'a, W> Witnesses<'a, W> {
    /// No witness yet, in any table. It is lent for as long as the witnesses are there.
    pub fn none(table: &'a mut [W]) -> Witnesses<'a, W>
        ensures same_table { result.table.ghost_name ≡ table.entry.ghost_name }
        ensures as_it_was { result.table.now ≡ table.old }
        ensures none { formed_in result ≡ [] }
    {
        Witnesses { table, count: 0 }
    }

    /// The witnesses, each at its number.
    pub fn as_slice(&self) -> &[W]
        ensures { result.now ≡ formed_in self.now }
    {
        &self.table[..self.count]
    }

    /// How many witnesses there are.
    pub fn count(&self) -> usize
        ensures { result ≡ length (formed_in self.now) }
    {
        self.count
    }
}
