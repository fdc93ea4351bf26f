// The hunt for an edge or a label that is there already.
ghost use Rattle.std.specs.Prelude.{◌≡◌, map};
ghost use Rattle.flow.specs.Closed.{leaves};
ghost use Rattle.flow.specs.Drawn.{is_label};
ghost use Rattle.flow.specs.Held.{label_of};
ghost use Rattle.std.specs.List.{list_any};

use crate::edge::Edge;
use crate::label::Label;

// Whether an edge leaves from the state.
pub(super) fn left_from(edges: &[Edge], state: u32) -> bool
    ensures { result ≡ leaves edges.now state }
{
    edges.iter().any(|edge| edge.from == state)
}

// Whether one of the labels, as they are held, is this one. The values come as a slice, which is not cut out anew for
// each label that is compared with them: so no `contains`.
fn is_held(labels: &[Label], state: u32, predicate: u32, values: &[u32]) -> bool
    ensures { result ≡ list_any (λ l. is_label state predicate values.now (label_of l)) labels.now }
{
    labels.iter().any(
        |label| -> bool
            ensures { result ≡ is_label state predicate values.entry.now (label_of label.now) }
        {
            label.state == state
                && label.predicate == predicate
                && label.values.as_slice() == values
        },
    )
}

// Whether the state has this very label. Its contract speaks of the labels that are drawn, and not of how they are held.
pub(super) fn labelled(labels: &[Label], state: u32, predicate: u32, values: &[u32]) -> bool
    ensures { result ≡ list_any (is_label state predicate values.now) (map label_of labels.now) }
{
    is_held(labels, state, predicate, values)
}
