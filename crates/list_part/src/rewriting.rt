// The list's part of a store while its rows change: rows put behind its rows or cleared, one table's columns given, and the order restored.
ghost use Rattle.std.specs.Prelude.{◌≡◌, ℕ, ◌<◌, ◌≤◌, length};
ghost use Rattle.rows.specs.Rows.{sorted};
ghost use Rattle.rows.specs.Marks.{Numbers};
ghost use Rattle.meaning.specs.Limits.{most_listed};
ghost use Rattle.store.specs.Parts.{count_in, Within, Kept, Wrote};
ghost use Rattle.list_part.specs.Fitting.{FitValues, width_of};
ghost use Rattle.list_part.specs.Loose.{row_put, rows_cleared, rows_given, Loose, loose_rows, Standing};

use crate::columns::Values;
use store::Part;

// r becomes row k of the part; its count stays.
pub fn put_behind(store: &mut [u64], p: Part, k: usize, r: &[u64])
    requires within { Within p store.old }
    requires k_lt_room { k < p.room }
    requires r_len { length r.now ≡ p.columns }
    ensures { store.new ≡ row_put p store.old k r.now }
{
    rows::write_over(&mut store[p.start..p.end()], k * p.columns, r);
}

// The rows of the part from row `first` on are zero again; its count stays.
pub fn clear_rows(store: &mut [u64], p: Part, first: usize)
    requires within { Within p store.old }
    requires first_le_room { first ≤ p.room }
    ensures { store.new ≡ rows_cleared p store.old first }
{
    store[p.start + first * p.columns..p.end()].fill(0);
}

// The part's rows at these numbers get these values, where they stand.
pub fn give_rows(values: Values, store: &mut [u64], p: Part, numbers: &[u16])
    requires fit { FitValues values }
    requires kept { Kept p store.old }
    requires columns_value { p.columns ≡ width_of values }
    requires numbers { Numbers (count_in p store.old) numbers.now }
    ensures { store.new ≡ rows_given values.entry.sheet.now values.entry.table values.entry.row.now numbers.now p store.old }
{
    let count = p.count(store);
    values.give_marked(&mut store[p.start..p.end()], count, numbers);
}

// The first count rows of the part, of which the first `stand` rise, are put in order and are its rows from then on.
pub fn settle_rows(store: &mut [u64], p: Part, stand: usize, count: usize)
    requires loose { Loose p count store.old }
    requires columns_nonzero { 0 < p.columns }
    requires columns_le_most_listed { p.columns ≤ most_listed }
    requires standing { Standing p stand count store.old }
    ensures { Wrote p (sorted (loose_rows p count store.old)) store.old store.new }
{
    sorting::settle(&mut store[p.start..p.end()], p.columns, stand, count);
    store[p.slot] = count as u64;
}
