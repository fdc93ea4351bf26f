// Lent tables made blank.
ghost use Rattle.std.specs.Prelude.{◌≡◌, length, replicate};
ghost use Rattle.rows.specs.Rows.{blank};
ghost use Rattle.rows.specs.Witnesses.{blank_witness};

use kinds::kind::Kind;
use rows::row::Row;
use rows::witness::Witness;

// Makes every element this value. The library's `fill` clones, and of a clone of a box generic code knows nothing.
fn fill<T: Copy>(table: &mut [T], value: T)
    ensures { table.new ≡ replicate (length table.old) value }
{
    for x in table.iter_mut() {
        *x = value;
    }
}

/// Makes every row the blank row of state 0. This and the next differ in the value alone, which is what they are for.
pub fn blank_rows<K: Kind>(rows: &mut [Row<K::Box>])
    ensures { rows.new ≡ replicate (length rows.old) (blank K.model 0) }
{
    fill(rows, Row::blank::<K>(0));
}

/// Makes every witness the blank one.
pub fn blank_witnesses<K: Kind>(witnesses: &mut [Witness<K::Box>])
    ensures { witnesses.new ≡ replicate (length witnesses.old) (blank_witness K.model) }
{
    fill(witnesses, Witness::blank::<K>());
}
