// What a call adds, or why it is refused: the tests stand in the order in which the refusals are given.
ghost use Rattle.std.specs.Prelude.{◌≡◌};
ghost use Rattle.flow.specs.Build.{edge as an_edge, label as a_label, state as a_state};
ghost use Rattle.flow.specs.Drawn.{answer};
ghost use Rattle.flow.specs.Graph.{Label as DrawnLabel};
ghost use Rattle.flow.specs.Held.{asked_of, label_of};

use crate::arguments::Arguments;
use crate::draft::Draft;
use crate::draft::hunting::labelled;
use crate::edge::Edge;
use crate::label::Label;
use crate::limits::{MOST_EDGES, MOST_STATES, PREDICATES};
use crate::refusal::Refusal;

impl Draft {
    // The number that the next state gets.
    #[tactic(auto, unfolding(crate::specs::Drawn::refusal))]
    pub(super) fn next_state(&self) -> Result<u32, Refusal>
        ensures { result ≡ answer self.now a_state self.now.states }
    {
        if self.states >= MOST_STATES {
            return Err(Refusal::TooManyStates);
        }
        Ok(self.states)
    }

    // The edge that joins the two states.
    #[tactic(auto, unfolding(crate::specs::Drawn::refusal))]
    pub(super) fn new_edge(&self, from: u32, to: u32) -> Result<Edge, Refusal>
        ensures { result ≡ answer self.now (an_edge from to) record { from = from; to = to } }
    {
        if from >= self.states || to >= self.states {
            return Err(Refusal::UnknownState);
        }
        let edge = Edge { from, to };
        if self.edges.as_slice().contains(&edge) {
            return Err(Refusal::AlreadyThere);
        }
        // The other places are for the edges that closing adds.
        if self.edges.len() >= MOST_EDGES {
            return Err(Refusal::TableFull);
        }
        Ok(edge)
    }

    // The label of the predicate with its values on the state.
    #[tactic(auto, unfolding(crate::specs::Drawn::refusal))]
    pub(super) fn new_label(
        &self,
        state: u32,
        predicate: u32,
        values: &[u32],
    ) -> Result<Label, Refusal>
        ensures { let call = a_label state predicate values.now in
            let label : DrawnLabel = record { state = state; predicate = predicate; values = values.now } in
            asked_of label_of result ≡ answer self.now call label }
    {
        if state >= self.states {
            return Err(Refusal::UnknownState);
        }
        if predicate >= PREDICATES {
            return Err(Refusal::BadLabel);
        }
        let label = Label {
            state,
            predicate,
            values: Arguments::try_from(values)?,
        };
        if labelled(self.labels.as_slice(), state, predicate, values) {
            return Err(Refusal::AlreadyThere);
        }
        if self.labels.is_full() {
            return Err(Refusal::TableFull);
        }
        Ok(label)
    }
}
