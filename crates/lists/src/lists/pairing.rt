// The pairing of two lists, added to a third.
ghost use Rattle.std.specs.Prelude.{[], ◌∷◌, ◌≢◌};
ghost use Rattle.lists.specs.Changes.{Adds};
ghost use Rattle.lists.specs.Lent.{table_in};
ghost use Rattle.lists.specs.Tables.{at};
ghost use Rattle.logic.specs.Adding.{pairs};

use crate::lists::Lists;
use crate::route::Route;
use crate::slot::Slot;
use kinds::kind::Kind;
use logic::shortage::Shortage;
use rows::row::Row;

// A row is read by its number in these loops: the list that is walked and the list that grows lie in the same lent
// rows, so no borrow of the one can last while the other is written.
impl<'a, B: Copy> Lists<'a, Row<B>> {
    // Adds to the list that grows what a row joins to with each row of the list that is read, in order.
    fn pair_row<K: Kind<Box = B>>(&mut self, row: Row<B>, route: Route) -> Result<(), Shortage>
        ensures { let rows = at (table_in self.old) route.source.number in
            Adds K.model result self.old self.new route.dest.number (pairs K.model (row ∷ []) rows) }
    {
        for i in 0..self.len(route.source) {
            let other = self.get(route.source, i);
            if let Some(both) = row.join::<K>(&other) {
                self.add::<K>(route.dest, both)?;
            }
        }
        Ok(())
    }

    /// Adds to `dest` the pairing of list `first` with list `second`: each row of the one joined with each of the
    /// other, where they join. Refuses where a row is new to a full list.
    pub fn pair<K: Kind<Box = B>>(
        &mut self,
        first: Slot,
        second: Slot,
        dest: Slot,
    ) -> Result<(), Shortage>
        requires first_apart { first.number ≢ dest.number }
        requires second_apart { second.number ≢ dest.number }
        ensures { let table = table_in self.old in
            Adds K.model result self.old self.new dest.number
            (pairs K.model (at table first.number) (at table second.number)) }
    {
        let route = Route {
            source: second,
            dest,
        };
        for i in 0..self.len(first) {
            let row = self.get(first, i);
            self.pair_row::<K>(row, route)?;
        }
        Ok(())
    }
}
