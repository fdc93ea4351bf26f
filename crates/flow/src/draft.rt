// A draft: the part of a case that is still being drawn. A contract sees the graph so far.
use crate::edge::Edge;
use crate::label::Label;
use crate::limits::{MOST_CLOSED_EDGES, MOST_LABELS, MOST_LINES};
use crate::line::Line;
use std::marker::Model;
use stores::store::Store;

mod building;
mod closing;
mod hunting;
mod reading;
mod refusing;

// The graph so far, with room for what may still come.
// No derived comparison: nothing compares two of them.
#[derive(Drop)]
pub struct Draft {
    states: u32,
    edges: Store<Edge, MOST_CLOSED_EDGES>,
    labels: Store<Label, MOST_LABELS>,
    lines: Store<Line, MOST_LINES>,
}

impl Model for Draft {
    ghost use Rattle.flow.specs.Graph.{Graph};

    ghost Value = { Graph };

    ghost use Rattle.flow.specs.Drafts.{Sketched, sketch};

    ghost view = { sketch };

    ghost invariant = { Sketched };
}
