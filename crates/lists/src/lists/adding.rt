// Rows added to a list.
ghost use Rattle.std.specs.Prelude.{◌≡◌, [], ◌∷◌};
ghost use Rattle.lists.specs.Changes.{Adds};
ghost use Rattle.lists.specs.Lent.{table_in};
ghost use Rattle.lists.specs.Tables.{at};
ghost use Rattle.logic.specs.Adding.{told};
ghost use Rattle.rows.specs.Rows.{equal};

use crate::lists::Lists;
use crate::slot::Slot;
use kinds::kind::Kind;
use logic::shortage::Shortage;
use rows::row::Row;

impl<'a, B: Copy> Lists<'a, Row<B>> {
    // Whether the list has a row that is equal to this one.
    #[tactic(auto, unfolding(logic::specs::Adding::told))]
    fn tells<K: Kind<Box = B>>(&self, list: Slot, row: &Row<B>) -> bool
        ensures { result ≡ told K.model (at (table_in self.now) list.number) row.now }
    {
        self.rows(list).iter().any(
            |seen| -> bool
                ensures { result ≡ equal K.model seen.now row.entry.now }
            { seen.equals::<K>(row) },
        )
    }

    /// Adds a row to a list, unless the list has one that is equal. Refuses a row that is new to a full list.
    pub fn add<K: Kind<Box = B>>(&mut self, list: Slot, row: Row<B>) -> Result<(), Shortage>
        ensures { Adds K.model result self.old self.new list.number (row ∷ []) }
    {
        if self.tells::<K>(list, &row) {
            return Ok(());
        }
        if self.len(list) >= self.limit {
            return Err(Shortage::Rows);
        }
        self.push(list, row);
        Ok(())
    }
}
