// Room for a case: all the memory that it will ever need.
ghost use Rattle.std.specs.Prelude.{◌≡◌, []};

use crate::edge::Edge;
use crate::label::Label;
use crate::limits::{MOST_CLOSED_EDGES, MOST_LABELS, MOST_LINES};
use crate::line::Line;
use stores::store::Store;

mod getting;

// The tables of a case, with nothing in them yet.
// A draft and a case have the same three, each with a promise of its own: one struct of them would only stand between
// a method and its table, and between a promise and what it is about.
// No derived comparison: nothing compares two of them.
#[derive(Drop)]
pub struct Room {
    pub(crate) edges: Store<Edge, MOST_CLOSED_EDGES>,
    pub(crate) labels: Store<Label, MOST_LABELS>,
    pub(crate) lines: Store<Line, MOST_LINES>,
    ghost no_edges: { edges ≡ [] },
    ghost no_labels: { labels ≡ [] },
    ghost no_lines: { lines ≡ [] },
}
