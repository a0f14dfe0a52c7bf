// One table's columns in list rows: whether a row shows a table's row, and rows that get its values.
ghost use Rattle.std.specs.Prelude.{◌≡◌, ℕ, ◌+◌, ◌*◌, ◌<◌, ◌≤◌, length, take};
ghost use Rattle.lists.specs.Lists.{at};
ghost use Rattle.rows.specs.Marks.{Numbers};
ghost use Rattle.meaning.specs.Sheet.{listed_count};
ghost use Rattle.sheet.specs.Rules.{Rules};
ghost use Rattle.list_part.specs.Fitting.{FitValues, width_of, with_row, given_one, given_at, turn_from};
ghost use Rattle.list_part.specs.Gives.{row_shows, Fits};

use sheet::LISTED;
use std::cmp::Ordering;

// A row's values for one table's columns of the list's rows.
#[derive(Clone, Copy)]
pub struct Values<'a> {
    pub sheet: &'a [u64],
    pub table: usize,
    pub row: &'a [u64],
}

impl Values<'_> {
    // Word k of row i of s with these values.
    fn word(self, s: &[u64], i: usize, k: usize) -> u64
        requires fit { FitValues self }
        requires s_in_bounds { i * width_of self + width_of self ≤ length s.now }
        requires k_bound { k < width_of self }
        ensures { result ≡ at (with_row self.entry i s.now) k }
    {
        let l = sheet::listing_no(self.sheet, k);
        if l.table == self.table {
            return self.row[l.column];
        }
        s[i * sheet::listed(self.sheet) + k]
    }

    // Row i of s with these values, and zeros behind it.
    pub fn given_row(self, s: &[u64], i: usize) -> [u64; LISTED]
        requires fit { FitValues self }
        requires s_in_bounds { i * width_of self + width_of self ≤ length s.now }
        ensures { take (width_of self.entry) result ≡ with_row self.entry i s.now }
    {
        let mut row = [0u64; LISTED];
        for k in 0..sheet::listed(self.sheet) {
            row[k] = self.word(s, i, k);
        }
        row
    }

    // Row i of s gets these values.
    fn give_row(self, s: &mut [u64], i: usize)
        requires fit { FitValues self }
        requires s_in_bounds { i * width_of self + width_of self ≤ length s.old }
        ensures { s.new ≡ given_one self.entry i s.old }
    {
        let p = sheet::listed(self.sheet);
        let row = self.given_row(s, i);
        rows::write_over(s, i * p, &row[..p]);
    }

    // The rows of the first count rows at these numbers get these values.
    pub fn give_marked(self, s: &mut [u64], count: usize, numbers: &[u16])
        requires fit { FitValues self }
        requires s_in_bounds { count * width_of self ≤ length s.old }
        requires numbers { Numbers count numbers.now }
        ensures { s.new ≡ given_at self.entry numbers.now count s.old }
    {
        for &i in numbers {
            self.give_row(s, i as usize);
        }
    }

    // How a list row that shows old's values stands, with these there, to what it was: all such rows alike.
    pub fn turn(self, old: &[u64]) -> Ordering
        requires fit { FitValues self }
        requires fits { Fits self.sheet.now self.table old.now }
        ensures { result ≡ turn_from self.entry old.now }
    {
        for k in 0..sheet::listed(self.sheet) {
            let l = sheet::listing_no(self.sheet, k);
            if l.table == self.table {
                let order = self.row[l.column].cmp(&old[l.column]);
                if order.is_ne() {
                    return order;
                }
            }
        }
        Ordering::Equal
    }
}

// Whether row i of s shows r's values in table t's columns.
pub fn shows_row(sheet: &[u64], s: &[u64], i: usize, t: usize, r: &[u64]) -> bool
    requires rules { Rules sheet.now }
    requires fits { Fits sheet.now t r.now }
    requires sheet_in_bounds { i * listed_count sheet.now + listed_count sheet.now ≤ length s.now }
    ensures { result ≡ row_shows sheet.now t r.now i s.now }
{
    let values = Values {
        sheet,
        table: t,
        row: r,
    };
    let p = sheet::listed(sheet);
    (0..p).all(|k| s[i * p + k] == values.word(s, i, k))
}
