// Forming witnesses.
ghost use Rattle.std.specs.Prelude.{◌≡◌, ◌≤◌, length, OnErr};
ghost use Rattle.lists.specs.Formed.{Forms, FormsWithin, formed_in};
ghost use Rattle.logic.specs.Witnessing.{number_from};
ghost use Rattle.rows.specs.Forests.{most_witnesses};
ghost use Rattle.rows.specs.Witnesses.{equal_witness};

use crate::witnesses::{MOST_WITNESSES, Witnesses};
use kinds::kind::Kind;
use logic::shortage::Shortage;
use rows::witness::Witness;

impl<'a, B: Copy> Witnesses<'a, Witness<B>> {
    // The number of the first witness that is equal to this one.
    fn number<K: Kind<Box = B>>(&self, witness: &Witness<B>) -> Option<usize>
        ensures { result ≡ number_from K.model 0 (formed_in self.now) witness.now }
    {
        self.as_slice().iter().position(
            |seen| -> bool
                ensures { result ≡ equal_witness K.model seen.now witness.entry.now }
            { seen.equals::<K>(witness) },
        )
    }

    /// Forms a witness and answers its number: an equal one keeps its number, any other gets the next. Refuses one too
    /// many, for any table or for this one, and leaves all as it was then.
    pub fn form<K: Kind<Box = B>>(&mut self, witness: Witness<B>) -> Result<u8, Shortage>
        ensures within { FormsWithin K.model result self.old self.new witness }
        ensures fits { most_witnesses ≤ length self.old.table.now → Forms K.model result self.old self.new witness }
        ensures kept { OnErr result (formed_in self.new ≡ formed_in self.old) }
        ensures as_it_was { OnErr result (self.new.table.now ≡ self.old.table.now) }
    {
        if let Some(n) = self.number::<K>(&witness) {
            return Ok(n as u8);
        }
        let n = self.count;
        if n >= MOST_WITNESSES.min(self.table.len()) {
            return Err(Shortage::Witnesses);
        }
        self.table[n] = witness;
        self.count = n + 1;
        Ok(n as u8)
    }
}
