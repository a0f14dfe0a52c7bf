// Refusals 1 and 2, for any run of words: the counts of a sheet, and each of its words against its rule.
ghost use Rattle.std.specs.Prelude.{◌≡◌, ℕ, ◌+◌, ◌≤◌, ◌<◌};
ghost use Rattle.lists.specs.Loops.{every, first};
ghost use Rattle.meaning.specs.Sheet.{table_count, edge_count, condition_count, listed_count, sheet_of, has_column, good_counts, good_words};
ghost use Rattle.sheet.specs.Rules.{Counts};
ghost use Rattle.sheet.specs.Tests.{width_passes, edge_passes, condition_passes, listing_passes, listing_names, room_passes};

use crate::limits::{COLUMNS, CONDITIONS, LISTED, ROOM, TABLES};
use crate::reading::{
    condition_no, conditions, edge_no, edges, listed, listing_no, room_no, tables, width_no,
};

// Refusal 1: the counts are in range, and the length is what they say.
pub fn counts_ok(sheet: &[u64]) -> bool
    ensures { result ≡ good_counts sheet.now }
{
    let &[n, e, c, p, ..] = sheet else {
        return false;
    };
    let (n, e, c, p) = (n as usize, e as usize, c as usize, p as usize);
    (1..=TABLES).contains(&n)
        && e == n - 1
        && c <= CONDITIONS
        && (1..=LISTED).contains(&p)
        && sheet.len() == 4 + 2 * n + 1 + 4 * e + 4 * c + 2 * p
}

// Whether every table has a column, and not too many.
fn widths_ok(sheet: &[u64]) -> bool
    requires { Counts sheet.now }
    ensures { result ≡ every (width_passes sheet.now) (table_count sheet.now) }
{
    (0..tables(sheet)).all(|t| (1..=COLUMNS).contains(&width_no(sheet, t)))
}

// Whether table t has a column of this number.
pub fn has_column(sheet: &[u64], t: usize, column: usize) -> bool
    requires { Counts sheet.now }
    ensures { result ≡ has_column (sheet_of sheet.now) t column }
{
    t < tables(sheet) && column < width_no(sheet, t)
}

fn edge_ok(sheet: &[u64], k: usize) -> bool
    requires counts { Counts sheet.now }
    requires k_bound { k < edge_count sheet.now }
    ensures { result ≡ edge_passes sheet.now k }
{
    let e = edge_no(sheet, k);
    has_column(sheet, e.child, e.column)
        && 1 <= e.column
        && e.parent < tables(sheet)
        && e.promise <= 1
}

fn edges_ok(sheet: &[u64]) -> bool
    requires { Counts sheet.now }
    ensures { result ≡ every (edge_passes sheet.now) (edge_count sheet.now) }
{
    (0..edges(sheet)).all(|k| edge_ok(sheet, k))
}

fn condition_ok(sheet: &[u64], k: usize) -> bool
    requires counts { Counts sheet.now }
    requires k_bound { k < condition_count sheet.now }
    ensures { result ≡ condition_passes sheet.now k }
{
    let d = condition_no(sheet, k);
    has_column(sheet, d.table, d.column) && d.lowest <= d.highest
}

fn conditions_ok(sheet: &[u64]) -> bool
    requires { Counts sheet.now }
    ensures { result ≡ every (condition_passes sheet.now) (condition_count sheet.now) }
{
    (0..conditions(sheet)).all(|k| condition_ok(sheet, k))
}

// Whether listing k names column c of table t.
fn names_column(sheet: &[u64], k: usize, t: usize, c: usize) -> bool
    requires counts { Counts sheet.now }
    requires k_bound { k < listed_count sheet.now }
    ensures { result ≡ listing_names sheet.now t c k }
{
    let l = listing_no(sheet, k);
    l.table == t && l.column == c
}

// The first of the listings below m that names column c of table t, or m where none does: a number, as `first` answers it.
// By a `for`, as `edge_into`: where a chain's `find` is inlined, the counts of the sheet are read anew at each step, and the plan call takes a sixth longer.
pub fn listing_of(sheet: &[u64], t: usize, c: usize, m: usize) -> usize
    requires counts { Counts sheet.now }
    requires m_bound { m ≤ listed_count sheet.now }
    ensures { result ≡ first (listing_names sheet.now t c) m }
{
    for k in 0..m {
        if names_column(sheet, k, t, c) {
            return k;
        }
    }
    m
}

// Listing k names a column that is there and that no listing before it names.
fn listing_ok(sheet: &[u64], k: usize) -> bool
    requires counts { Counts sheet.now }
    requires k_bound { k < listed_count sheet.now }
    ensures { result ≡ listing_passes sheet.now k }
{
    let l = listing_no(sheet, k);
    has_column(sheet, l.table, l.column)
        && !(0..k).any(|j| names_column(sheet, j, l.table, l.column))
}

fn listings_ok(sheet: &[u64]) -> bool
    requires { Counts sheet.now }
    ensures { result ≡ every (listing_passes sheet.now) (listed_count sheet.now) }
{
    (0..listed(sheet)).all(|k| listing_ok(sheet, k))
}

// Whether no part's room is too large.
fn rooms_ok(sheet: &[u64]) -> bool
    requires { Counts sheet.now }
    ensures { result ≡ every (room_passes sheet.now) (table_count sheet.now + 1) }
{
    (0..tables(sheet) + 1).all(|part| room_no(sheet, part) <= ROOM)
}

// Refusal 2: every width, edge, condition, listing and room word is within the sheet's rules.
pub fn words_ok(sheet: &[u64]) -> bool
    requires { Counts sheet.now }
    ensures { result ≡ good_words (sheet_of sheet.now) }
{
    widths_ok(sheet)
        && edges_ok(sheet)
        && conditions_ok(sheet)
        && listings_ok(sheet)
        && rooms_ok(sheet)
}
