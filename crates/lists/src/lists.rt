// Where the lists of a lent table lie: list i has the rows from i * limit on, and its length says how many.
ghost use Rattle.std.specs.Prelude.{◌≡◌, ℕ, ◌*◌, ◌≤◌, length, slice_index};
ghost use Rattle.lists.specs.Counts.{list_count, most_rows};

mod adding;
mod making;
mod pairing;
mod reading;
mod writing;

/// How many lists there are: one for each line of a sheet, and four for working.
pub const LISTS: usize = 36;

/// Lists of at most `limit` rows each, in rows that are lent. R is the sort of row, `Row<B>` for boxes B: so named, its
/// size is known wherever the lists are.
// No derived comparison: nothing compares two of them. And no `Model`, which would hide what the lent rows hold at the
// end.
#[derive(Drop)]
pub struct Lists<'a, R> {
    rows: &'a mut [R],
    limit: usize,
    // Beside the rows, since what is lent has room for rows alone.
    lengths: [usize; LISTS],
    ghost small: { limit ≤ most_rows },
    ghost lent: { list_count * limit ≤ length rows.now },
    ghost many: { length lengths ≡ list_count },
    ghost within: { (i : ℕ) → slice_index lengths i ≤ limit },
}
