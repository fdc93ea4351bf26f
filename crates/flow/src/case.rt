// A case: a closed flow graph, and the sheet of formula lines on top of it. A contract sees these two.
use crate::edge::Edge;
use crate::label::Label;
use crate::limits::{MOST_CLOSED_EDGES, MOST_LABELS, MOST_LINES};
use crate::line::Line;
use std::marker::Model;
use stores::store::Store;

mod entering;
mod reading;

// Only `close` makes one, and only `line` changes it.
// No derived comparison: nothing compares two of them.
#[derive(Drop)]
pub struct Case {
    pub(crate) states: u32,
    pub(crate) edges: Store<Edge, MOST_CLOSED_EDGES>,
    pub(crate) labels: Store<Label, MOST_LABELS>,
    pub(crate) lines: Store<Line, MOST_LINES>,
}

impl Model for Case {
    ghost use Rattle.flow.specs.Cases.{Content};

    ghost Value = { Content };

    ghost use Rattle.flow.specs.Kept.{Kept, content};

    ghost view = { content };

    ghost invariant = { Kept };
}
