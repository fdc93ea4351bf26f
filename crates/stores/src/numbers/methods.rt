// Adding and reading numbers.
ghost use Rattle.std.specs.Prelude.{◌≡◌, ◌<◌, ◌≤◌, [], ◌∷◌, ◌++◌, length};
ghost use Rattle.stores.specs.Listed.{listed};

use crate::numbers::Numbers;

impl<const N: usize> Numbers<N> {
    /// No numbers yet.
    pub fn new() -> Numbers<N>
        ensures { listed result ≡ [] }
    {
        Numbers {
            places: [0; N],
            count: 0,
        }
    }

    /// One number more, at the end.
    pub fn push(&mut self, n: u32)
        requires { length (listed self.old) < N }
        ensures { listed self.new ≡ listed self.old ++ n ∷ [] }
    {
        self.places[self.count] = n;
        self.count += 1;
    }

    /// The numbers, in their order.
    pub fn as_slice(&self) -> &[u32]
        ensures all { result.now ≡ listed self.now }
        ensures few { length result.now ≤ N }
    {
        &self.places[..self.count]
    }
}
