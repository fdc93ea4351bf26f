// A forest: the set of the witnesses of a row, or of those below a witness, by their numbers.
ghost use Rattle.std.specs.Prelude.{◌≡◌, ℕ, true, ◌↔◌};
ghost use Rattle.rows.specs.Forests.{alike, has, none, single, union};

// How many words a forest has.
const WORDS: usize = 4;

// How many numbers a word stands for.
const WORD_BITS: u8 = 64;

/// A set of witness numbers, each below 256: bit k of word w stands for the number 64 w + k.
#[derive(Clone, Copy, PartialEq, Eq, Debug)]
pub struct Forest {
    // In place, since a forest is copied with its row and wants no memory.
    words: [u64; WORDS],
}

impl Forest {
    /// No witnesses.
    #[tactic(auto, unfolding(crate::specs::Forests::none))]
    pub fn none() -> Forest
        ensures { result ≡ none }
    {
        Forest { words: [0; WORDS] }
    }

    /// The one witness of this number.
    #[tactic(auto, unfolding(crate::specs::Forests::single))]
    pub fn single(number: u8) -> Forest
        ensures { result ≡ single number }
    {
        let mut words = [0; WORDS];
        words[(number / WORD_BITS) as usize] = 1 << (number % WORD_BITS);
        Forest { words }
    }

    /// Whether the witness of this number is in.
    #[tactic(auto, unfolding(crate::specs::Forests::has))]
    pub fn has(&self, number: u8) -> bool
        ensures { result ≡ has self.now number }
    {
        let word = self.words[(number / WORD_BITS) as usize];
        (word >> (number % WORD_BITS)) % 2 == 1
    }

    /// The witnesses of both.
    pub fn union(&self, other: &Forest) -> Forest
        ensures { result ≡ union self.now other.now }
    {
        Forest {
            words: std::array::from_fn(|i| self.words[i] | other.words[i]),
        }
    }

    /// Whether both have the same witnesses: `==`, and what it says of the members.
    #[tactic(auto, unfolding(crate::specs::Forests::alike))]
    pub fn equals(&self, other: &Forest) -> bool
        ensures words { result ≡ alike self.now other.now }
        ensures members { (result ≡ true) ↔ ((n : ℕ) → has self.now n ≡ has other.now n) }
    {
        // A word of each is read, which tells a proof how large words are.
        let _words = (self.words[0], other.words[0]);
        *self == *other
    }
}
