// A row: a state where a line holds, what each variable may stand for there, and what bears witness.
ghost use Rattle.std.specs.Prelude.{◌≡◌};
ghost use Rattle.rows.specs.Rows.{blank, equal, join, meets, same_boxes, with_box};

use crate::forest::Forest;
use crate::variable::Variable;
use flow::limits::VARIABLES;
use kinds::kind::Kind;

/// How many boxes a row has: one for each variable.
pub const BOXES: usize = VARIABLES as usize;

/// A state, the box of each variable, and the witnesses. `==` compares how the boxes are held, and `equals` what they
/// allow.
#[derive(Clone, Copy, PartialEq, Eq, Debug)]
pub struct Row<B> {
    pub state: u32,
    // In place, one for each variable: a row wants no memory.
    pub boxes: [B; BOXES],
    pub forest: Forest,
}

// Whether the boxes are the same, place by place. Not by `==`: which boxes are the same is the kind's to say.
fn same_boxes<K: Kind>(ours: &[K::Box; BOXES], theirs: &[K::Box; BOXES]) -> bool
    ensures { result ≡ same_boxes K.model ours.now theirs.now }
{
    ours.iter().zip(theirs).all(|(x, y)| K::same(x, y))
}

// The boxes met place by place, or none where two have no value in common.
fn meet_boxes<K: Kind>(ours: &[K::Box; BOXES], theirs: &[K::Box; BOXES]) -> Option<[K::Box; BOXES]>
    ensures { result ≡ meets K.model ours.now theirs.now }
{
    let mut met = *ours;
    // By place: an iterator gives no array back.
    for (i, b) in theirs.iter().enumerate() {
        let a = met[i];
        met[i] = K::meet(&a, b)?;
    }
    Some(met)
}

impl<B: Copy> Row<B> {
    /// The blank row of a state: each variable may have any value, and there are no witnesses.
    #[tactic(auto, unfolding(crate::specs::Rows::blank))]
    pub fn blank<K: Kind<Box = B>>(state: u32) -> Row<B>
        ensures { result ≡ blank K.model state }
    {
        Row {
            state,
            boxes: [K::all(); BOXES],
            forest: Forest::none(),
        }
    }

    /// The row with another box for one variable.
    pub fn with_box<K: Kind<Box = B>>(mut self, variable: Variable, b: B) -> Row<B>
        ensures { result ≡ with_box K.model self variable.number b }
    {
        self.boxes[variable.number] = b;
        self
    }

    /// Whether the boxes are the same, as the kind says, and all else is equal.
    #[tactic(auto, unfolding(crate::specs::Rows::equal, crate::specs::Forests::alike))]
    pub fn equals<K: Kind<Box = B>>(&self, other: &Row<B>) -> bool
        ensures { result ≡ equal K.model self.now other.now }
    {
        self.state == other.state
            && self.forest == other.forest
            && same_boxes::<K>(&self.boxes, &other.boxes)
    }

    /// Both rows in one: their boxes met and their forests united. None where the states differ or boxes have no value
    /// in common.
    #[tactic(auto, unfolding(crate::specs::Rows::join))]
    pub fn join<K: Kind<Box = B>>(&self, other: &Row<B>) -> Option<Row<B>>
        ensures { result ≡ join K.model self.now other.now }
    {
        if self.state != other.state {
            return None;
        }
        Some(Row {
            state: self.state,
            boxes: meet_boxes::<K>(&self.boxes, &other.boxes)?,
            forest: self.forest.union(&other.forest),
        })
    }
}
