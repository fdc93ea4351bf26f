// Printing on a page.
ghost use Rattle.std.specs.Prelude.{◌≡◌, [], ◌∷◌, IfOk, Some, decimal};
ghost use Rattle.std.specs.Iterator.{IsFinite};
ghost use Rattle.std.specs.Iterator.Runs.{WholeRun};
ghost use Rattle.pages.specs.Pages.{Prints, Within};
ghost use Rattle.pages.specs.Records.{as_fields, crlf};
ghost use Rattle.pages.specs.Spaced.{spaced};

use crate::page::{LIMIT, Page};
use std::alloc::{AllocError, Global};
use stores::store::Store;

#[tactic(auto, using(crate::proofs::Adding::printing))]
impl Page {
    /// An empty page. This gets all the memory that the page will ever need; it fails only for want of it.
    pub fn new(heap: Global) -> Result<Page, AllocError>
        ensures { IfOk result (λ p. p ≡ Some []) }
    {
        Ok(Page {
            bytes: Store::new(heap)?,
            over: false,
        })
    }

    /// Takes everything off the page.
    pub fn clear(&mut self)
        ensures { self.new ≡ Some [] }
    {
        self.bytes.clear();
        self.over = false;
    }

    /// Prints one byte.
    #[tactic(auto, unfolding(crate::specs::Pages::add))]
    pub fn put(&mut self, b: u8)
        ensures { Prints self.old (b ∷ []) self.new }
    {
        if self.bytes.is_full() {
            self.over = true;
        } else {
            self.bytes.push(b);
        }
    }

    /// Prints the bytes, in order.
    pub fn put_all(&mut self, bytes: &[u8])
        ensures prints { Prints self.old bytes.now self.new }
        ensures few { Within self.new }
    {
        // For the proof alone, which learns here that the bytes are few: where none is added, no `put` says so.
        let _ = &self.bytes;
        for &b in bytes {
            self.put(b);
        }
    }

    /// Prints a number to base ten.
    // No `Display`: a page's memory is got once, and the library says only of a `String`, which grows, what printing
    // leaves.
    pub fn put_number(&mut self, n: u32)
        ensures prints { Prints self.old (decimal n) self.new }
        ensures few { Within self.new }
    {
        if n >= 10 {
            self.put_number(n / 10);
        }
        self.put(b'0' + (n % 10) as u8);
    }

    /// Prints the numbers that an iterator gives, with single spaces between them.
    pub fn put_list<I: Iterator<Item = u32> + Drop>(&mut self, mut numbers: I)
        requires can { I.can_next numbers }
        requires ends { IsFinite (I.remaining numbers) }
        ensures prints { WholeRun I.next_gives numbers (λ p. Prints self.old (spaced p.items) self.new) }
        ensures few { Within self.new }
    {
        // As in `put_all`.
        let _ = &self.bytes;
        if let Some(first) = numbers.next() {
            self.put_number(first);
            for n in numbers {
                self.put(b' ');
                self.put_number(n);
            }
        }
    }

    /// Prints numbers as fields of a record, each after a comma.
    pub fn put_fields(&mut self, numbers: &[u32])
        ensures prints { Prints self.old (as_fields numbers.now) self.new }
        ensures few { Within self.new }
    {
        // As in `put_all`.
        let _ = &self.bytes;
        for &n in numbers {
            self.put(b',');
            self.put_number(n);
        }
    }

    /// Ends a record.
    pub fn end_record(&mut self)
        ensures { Prints self.old crlf self.new }
    {
        self.put(b'\r');
        self.put(b'\n');
    }
}
