// Closing a draft.
ghost use Rattle.std.specs.Prelude.{◌≡◌, []};
ghost use Rattle.flow.specs.Closed.{closed};
ghost use Rattle.flow.specs.Facts.{ClosedGraph};

use crate::case::Case;
use crate::draft::Draft;
use crate::draft::hunting::left_from;
use crate::edge::Edge;

impl Draft {
    /// Uses up the draft and gives each state that has no outgoing edge one to itself. Never refused.
    #[tactic(auto, using(crate::proofs::Loops::closing))]
    pub fn close(self) -> Case
        ensures graph { result.graph ≡ closed self }
        ensures sheet { result.lines ≡ [] }
        ensures facts { ClosedGraph result.graph }
    {
        let Draft {
            states,
            mut edges,
            labels,
            lines,
        } = self;
        for state in 0..states {
            if !left_from(edges.as_slice(), state) {
                edges.push(Edge {
                    from: state,
                    to: state,
                });
            }
        }
        Case {
            states,
            edges,
            labels,
            lines,
        }
    }
}
