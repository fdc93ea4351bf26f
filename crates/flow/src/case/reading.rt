// What a case holds.
ghost use Rattle.std.specs.Prelude.{◌≡◌, ◌≤◌, map, length};
ghost use Rattle.flow.specs.Facts.{ClosedGraph, Ordered};
ghost use Rattle.flow.specs.Graph.{successors};
ghost use Rattle.flow.specs.Held.{label_of, line_of};
ghost use Rattle.flow.specs.Limits.{most_closed_edges, most_labels, most_lines};
ghost use Rattle.flow.specs.Sound.{SoundClosed};
ghost use Rattle.std.specs.List.{slice_get};

use crate::case::Case;
use crate::edge::Edge;
use crate::label::Label;
use crate::line::Line;

impl Case {
    /// How many states there are: they are the numbers below this.
    pub fn states(&self) -> u32
        ensures { result ≡ self.now.graph.states }
    {
        self.states
    }

    /// The edges, those that were drawn first. Whoever is lent a case learns here what always holds of its graph.
    #[tactic(auto, using(crate::proofs::Facts::closed_graph))]
    pub fn edges(&self) -> &[Edge]
        ensures drawn { result.now ≡ self.now.graph.edges }
        ensures few { length result.now ≤ most_closed_edges }
        ensures sound { SoundClosed self.now.graph }
        ensures closed { ClosedGraph self.now.graph }
    {
        self.edges.as_slice()
    }

    /// The i-th successor of a state, in edge order, or none past the last.
    pub fn successor(&self, state: u32, i: usize) -> Option<u32>
        ensures { result ≡ slice_get (successors self.now.graph state) i }
    {
        self.edges()
            .iter()
            .filter(|edge| edge.from == state)
            .map(|edge| edge.to)
            .nth(i)
    }

    /// The labels, in the order of entry.
    pub fn labels(&self) -> &[Label]
        ensures entered { map label_of result.now ≡ self.now.graph.labels }
        ensures few { length result.now ≤ most_labels }
    {
        self.labels.as_slice()
    }

    /// The formula lines, by their numbers.
    pub fn lines(&self) -> &[Line]
        ensures sheet { map line_of result.now ≡ self.now.lines }
        ensures few { length result.now ≤ most_lines }
        ensures ordered { Ordered self.now.lines }
    {
        self.lines.as_slice()
    }
}
