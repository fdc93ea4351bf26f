// The calls that draw. A refused call leaves the draft as it was.
ghost use Rattle.std.specs.Prelude.{◌≡◌};
ghost use Rattle.flow.specs.Build.{edge as an_edge, label as a_label, state as a_state};
ghost use Rattle.flow.specs.Drawn.{after, answer};
ghost use Rattle.flow.specs.Graph.{nothing_drawn};

use crate::draft::Draft;
use crate::refusal::Refusal;
use crate::room::Room;

impl Draft {
    /// An empty draft, in the room that it is given.
    pub fn begin(room: Room) -> Draft
        ensures { result ≡ nothing_drawn }
    {
        let Room {
            edges,
            labels,
            lines,
        } = room;
        Draft {
            states: 0,
            edges,
            labels,
            lines,
        }
    }

    /// Adds the next state and answers its number, from 0. Refused where there are as many as there may be.
    #[tactic(auto, using(crate::proofs::Soundness::accepted), unfolding(crate::specs::Drawn::added))]
    pub fn state(&mut self) -> Result<u32, Refusal>
        ensures answers { result ≡ answer self.old a_state self.old.states }
        ensures leaves { self.new ≡ after self.old a_state }
    {
        let number = self.next_state()?;
        self.states = number + 1;
        Ok(number)
    }

    /// Joins two states. Refused where one is unknown, where the edge is there, or where the table is full.
    #[tactic(auto, using(crate::proofs::Soundness::accepted), unfolding(crate::specs::Drawn::added))]
    pub fn edge(&mut self, from: u32, to: u32) -> Result<(), Refusal>
        ensures answers { result ≡ answer self.old (an_edge from to) tt }
        ensures leaves { self.new ≡ after self.old (an_edge from to) }
    {
        let edge = self.new_edge(from, to)?;
        self.edges.push(edge);
        Ok(())
    }

    /// Puts a predicate with its values on a state. Refused where the state is unknown, where the predicate or the
    /// count of values is too large, where the state has this very label, or where the table is full.
    #[tactic(auto, using(crate::proofs::Soundness::accepted), unfolding(crate::specs::Drawn::added))]
    pub fn label(&mut self, state: u32, predicate: u32, values: &[u32]) -> Result<(), Refusal>
        ensures answers { let call = a_label state predicate values.now in
            result ≡ answer self.old call tt }
        ensures leaves { let call = a_label state predicate values.now in
            self.new ≡ after self.old call }
    {
        let label = self.new_label(state, predicate, values)?;
        self.labels.push(label);
        Ok(())
    }
}
