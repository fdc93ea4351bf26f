// What a draft holds.
ghost use Rattle.std.specs.Prelude.{◌≡◌, ◌≤◌, length};
ghost use Rattle.flow.specs.Limits.{most_edges};
ghost use Rattle.flow.specs.Sound.{Sound};

use crate::draft::Draft;
use crate::edge::Edge;

impl Draft {
    /// The edges, in the order of drawing. Whoever is lent a draft learns here what always holds of it.
    pub fn edges(&self) -> &[Edge]
        ensures drawn { result.now ≡ self.now.edges }
        ensures few { length result.now ≤ most_edges }
        ensures sound { Sound most_edges self.now }
    {
        self.edges.as_slice()
    }
}
