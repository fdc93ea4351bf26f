// A witness: a place further down the paths, and what a variable may stand for there.
ghost use Rattle.std.specs.Prelude.{◌≡◌};
ghost use Rattle.rows.specs.Witnesses.{blank_witness, equal_witness};

use crate::forest::Forest;
use kinds::kind::Kind;

/// A state, a variable, the box of what was found there, and the witnesses below. `==` compares how the box is held,
/// and `equals` what it allows.
#[derive(Clone, Copy, PartialEq, Eq, Debug)]
pub struct Witness<B> {
    pub state: u32,
    pub variable: u32,
    pub found: B,
    pub forest: Forest,
}

impl<B: Copy> Witness<B> {
    /// The blank witness: state 0, variable 0, any value, and no witnesses below it.
    #[tactic(auto, unfolding(crate::specs::Witnesses::blank_witness))]
    pub fn blank<K: Kind<Box = B>>() -> Witness<B>
        ensures { result ≡ blank_witness K.model }
    {
        Witness {
            state: 0,
            variable: 0,
            found: K::all(),
            forest: Forest::none(),
        }
    }

    /// Whether the boxes are the same, as the kind says, and all else is equal.
    #[tactic(auto, unfolding(crate::specs::Witnesses::equal_witness, crate::specs::Forests::alike))]
    pub fn equals<K: Kind<Box = B>>(&self, other: &Witness<B>) -> bool
        ensures { result ≡ equal_witness K.model self.now other.now }
    {
        self.state == other.state
            && self.variable == other.variable
            && self.forest == other.forest
            && K::same(&self.found, &other.found)
    }
}
