// The page: the bytes printed so far, and whether a byte has found no room.
ghost use Rattle.std.specs.Prelude.{ℕ, ◌≤◌, cond, List, length, Some, None, Option};
ghost use Rattle.pages.specs.Limit.{limit};

use std::marker::Model;
use stores::store::Store;

mod reading;
mod writing;

/// The most bytes of a page.
pub const LIMIT: usize = 65536;

/// Printed bytes. A contract sees the bytes, or none once a byte found no room.
// No derived comparison: nothing compares two of them.
#[derive(Drop)]
pub struct Page {
    bytes: Store<u8, LIMIT>,
    // Beside the bytes, since their memory has to stay for `clear`.
    over: bool,
}

impl Model for Page {
    ghost Value = { Option (List ℕ) };

    ghost view = { λ p. cond p.over None (Some p.bytes) };

    ghost invariant = { λ p. length p.bytes ≤ limit };
}
