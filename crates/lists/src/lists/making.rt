// Making lists.
ghost use Rattle.std.specs.Prelude.{◌≡◌, ◌*◌, ◌≤◌, length};
ghost use Rattle.lists.specs.Counts.{list_count, most_rows};
ghost use Rattle.lists.specs.Lent.{room_for, table_in};
ghost use Rattle.lists.specs.Tables.{no_rows};

use crate::lists::{LISTS, Lists};

impl<'a, R> Lists<'a, R> {
    /// Every list empty. A list may have `limit` rows, or as many as the lent rows have room for. They are lent for as
    /// long as the lists are there.
    pub fn new(rows: &'a mut [R], limit: usize) -> Lists<'a, R>
        requires small { limit ≤ most_rows }
        ensures same_rows { result.rows.ghost_name ≡ rows.entry.ghost_name }
        ensures as_they_were { result.rows.now ≡ rows.old }
        ensures limit { result.limit ≡ room_for rows.old limit }
        ensures empty { table_in result ≡ no_rows (room_for rows.old limit) }
        ensures fits { list_count * limit ≤ length rows.old → table_in result ≡ no_rows limit }
    {
        let limit = limit.min(rows.len() / LISTS);
        Lists {
            rows,
            limit,
            lengths: [0; LISTS],
        }
    }
}
