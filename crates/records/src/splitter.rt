// The splitter: the records of a text, one after the other.
// A record ends at a CRLF, and the last one may lack it. A CRLF at the very end of the text starts no further
// record, and an empty text has none; elsewhere an empty record is a record too.
ghost use Rattle.std.specs.Prelude.{◌≡◌, ◌+◌, ◌^◌, ◌<◌, length};
ghost use Rattle.std.specs.Iterator.{item_count};
ghost use Rattle.records.specs.Next.{Next};

use crate::record::Record;
use crate::scan::{Cut, first_cut};

/// What is left of the text, and how many records were read. Each took a byte or more, so their count fits.
// No derived comparison: nothing compares two of them.
#[derive(Drop)]
pub struct Splitter<'a> {
    left: &'a [u8],
    // No length of `left`: it numbers the records.
    count: usize,
    ghost counted: { count + length left.now < 2 ^ 64 },
}

impl<'a> Splitter<'a> {
    /// A splitter of the whole text.
    pub fn new(input: &'a [u8]) -> Splitter<'a>
        ensures left { result.left.now ≡ input.now }
        ensures count { result.count ≡ 0 }
    {
        Splitter {
            left: input,
            count: 0,
        }
    }
}

/// The records that are left.
impl<'a> Iterator for Splitter<'a> {
    type Item = Record<'a>;

    ghost next_gives = { λ from answer to. Next from.left.now from.count answer to.left.now to.count };

    ghost remaining = { item_count (λ s. s.left.now) };

    #[tactic(auto, unfolding(crate::specs::Texts::records))]
    fn next(&mut self) -> Option<Record<'a>> {
        if self.left.is_empty() {
            return None;
        }
        let Cut { text, rest, strays } = first_cut(self.left);
        self.left = rest;
        self.count += 1;
        let number = self.count;
        Some(Record {
            text,
            number,
            strays,
        })
    }
}
