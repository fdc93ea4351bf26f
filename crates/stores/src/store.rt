// Things in memory that is got once, with room for N of them.
ghost use Rattle.std.specs.Prelude.{◌≡◌, ◌<◌, ◌≤◌, [], ◌∷◌, ◌++◌, IfOk, ◌==◌, length};

use std::alloc::{AllocError, Global};
use std::marker::Model;

/// A list of at most N things. A contract sees the list.
// No derived comparison: nothing compares two of them.
#[derive(Drop)]
pub struct Store<T, const N: usize> {
    items: Vec<T>,
}

impl<T, const N: usize> Model for Store<T, N> {
    ghost use Rattle.std.specs.Prelude.{List};

    ghost Value = { List T };

    ghost use Rattle.stores.specs.Stored.{Stored};

    ghost view = { λ s. s.items.items };

    ghost invariant = { Stored N };
}

impl<T, const N: usize> Store<T, N> {
    /// Nothing yet. This gets the memory for N things, and fails only for want of it.
    pub fn new(heap: Global) -> Result<Store<T, N>, AllocError>
        ensures { IfOk result (λ s. s ≡ []) }
    {
        Ok(Store {
            items: Vec::with_capacity(heap, N)?,
        })
    }

    /// One thing more, at the end.
    pub fn push(&mut self, item: T)
        requires { length self.old < N }
        ensures { self.new ≡ self.old ++ item ∷ [] }
    {
        self.items.push_reserved(item);
    }

    /// Nothing any more. The memory stays.
    pub fn clear(&mut self)
    where
        T: Drop,
        ensures { self.new ≡ [] }
    {
        self.items.clear();
    }

    /// How many things there are.
    // `few` is said by each reader: who calls sees the list alone, and not what always holds of it.
    pub fn len(&self) -> usize
        ensures count { result ≡ length self.now }
        ensures few { result ≤ N }
    {
        self.items.len()
    }

    /// Whether there are as many as there may be.
    pub fn is_full(&self) -> bool
        ensures full { result ≡ (length self.now == N) }
        ensures few { length self.now ≤ N }
    {
        self.len() == N
    }

    /// The things, in their order.
    pub fn as_slice(&self) -> &[T]
        ensures all { result.now ≡ self.now }
        ensures few { length self.now ≤ N }
    {
        self.items.as_slice()
    }
}
