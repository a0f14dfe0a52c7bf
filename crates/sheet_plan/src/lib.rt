// The plan of a good sheet: what the calls need of it, as arrays table by table; or the refusal of one that is not.
#![tactic(auto)]

mod marks;
mod outward;

ghost use Rattle.std.specs.Prelude.{◌≡◌, ℕ, ◌+◌, ◌*◌, ◌≤◌, ◌<◌};
ghost use Rattle.meaning.specs.Limits.{most_tables, most_columns};
ghost use Rattle.meaning.specs.Sheet.{sheet_of, table_count};
ghost use Rattle.meaning.specs.Plan.{columns, size};
ghost use Rattle.sheet.specs.Rules.{Counts};
ghost use Rattle.sheet.specs.Tree.{GoodSheet};
ghost use Rattle.sheet_plan.specs.Marked.{marked_by};
ghost use Rattle.sheet_plan.specs.Plans.{kept_of, shows_of, columns_of, rooms_of, starts_of, plan_for, checked_of};

use marks::{lay_rows, marks_before};
use outward::order_of;
use sheet::{COLUMNS, PARTS, PLACES, Refusal, TABLES};

// Part t is table t's, part n (tables) the list's. Column sets have eight places for each table, from 8t on.
#[derive(Clone, Copy)]
pub struct Plan {
    pub tables: usize,
    pub root: usize,
    // the store's length
    pub store: usize,
    // 1 for a table that has a side table
    pub kept: [u64; TABLES],
    // 1 at 8t + c if table t's side table shows column c
    pub shows: [u64; PLACES],
    // the columns that it shows, in rising order, from 8t on
    pub shown: [usize; PLACES],
    // of each part: how many columns its rows have, how many rows it has room for, where it begins in the store
    pub columns: [usize; PARTS],
    pub rooms: [usize; PARTS],
    // and behind the list the store's end
    pub starts: [usize; PARTS + 1],
    // the numbers of the edges, in an order from the root outward
    pub order: [usize; TABLES],
    // the place at 8t + c that column c has among those that table t's side table shows
    pub places: [usize; PLACES],
}

fn kept_marks(sheet: &[u64]) -> [u64; TABLES]
    requires { GoodSheet sheet.now }
    ensures { result ≡ kept_of (sheet_of sheet.now) }
{
    let n = sheet::tables(sheet);
    std::array::from_fn(|t| if t < n {
        u64::from(derive::is_kept(sheet, t))
    } else {
        0
    })
}

// Marks n places, each the table and the column that `place` gives.
fn mark_each<P: Fn(usize) -> (usize, usize)>(m: &mut [u64; PLACES], n: usize, place: P)
    requires callable { (k : ℕ) → k < n → P.pre place k }
    requires there { (k : ℕ) (r : ℕ × ℕ) → k < n → P.post place k r → (r.0 < most_tables) × (r.1 < most_columns) }
    ensures { (f : ℕ → ℕ) → ((k : ℕ) (r : ℕ × ℕ) → k < n → P.post place k r → most_columns * r.0 + r.1 ≡ f k)
        → m.new ≡ marked_by f n m.old }
{
    for k in 0..n {
        let (t, c) = place(k);
        m[COLUMNS * t + c] = 1;
    }
}

// The columns that the side tables show, each marked at 8t + c: the keys, the child columns and the listed columns.
fn shows_marks(sheet: &[u64]) -> [u64; PLACES]
    requires { GoodSheet sheet.now }
    ensures { result ≡ shows_of (sheet_of sheet.now) }
{
    let mut m = [0u64; PLACES];
    mark_each(&mut m, sheet::tables(sheet), |t| (t, 0));
    mark_each(&mut m, sheet::edges(sheet), |k| {
        let edge = sheet::edge_no(sheet, k);
        (edge.child, edge.column)
    });
    mark_each(&mut m, sheet::listed(sheet), |k| {
        let listing = sheet::listing_no(sheet, k);
        (listing.table, listing.column)
    });
    m
}

// How many columns the rows of a part have: none for an unkept table, the listed columns for the list.
fn columns_in(sheet: &[u64], kept: &[u64; TABLES], shows: &[u64; PLACES], part: usize) -> usize
    requires { GoodSheet sheet.now × ((kept.now ≡ kept_of (sheet_of sheet.now))
        × ((shows.now ≡ shows_of (sheet_of sheet.now)) × (part ≤ table_count sheet.now))) }
    ensures { result ≡ columns (sheet_of sheet.now) part }
{
    if sheet::tables(sheet) <= part {
        return sheet::listed(sheet);
    }
    if kept[part] == 0 {
        return 0;
    }
    marks_before(shows, part, COLUMNS)
}

fn columns_of(sheet: &[u64], kept: &[u64; TABLES], shows: &[u64; PLACES]) -> [usize; PARTS]
    requires { GoodSheet sheet.now × ((kept.now ≡ kept_of (sheet_of sheet.now)) × (shows.now ≡ shows_of (sheet_of sheet.now))) }
    ensures { result ≡ columns_of (sheet_of sheet.now) }
{
    let list = sheet::tables(sheet);
    std::array::from_fn(|part| if part <= list {
        columns_in(sheet, kept, shows, part)
    } else {
        0
    })
}

fn rooms_of(sheet: &[u64]) -> [usize; PARTS]
    requires { Counts sheet.now }
    ensures { result ≡ rooms_of (sheet_of sheet.now) }
{
    let list = sheet::tables(sheet);
    std::array::from_fn(|part| if part <= list {
        sheet::room_no(sheet, part)
    } else {
        0
    })
}

// How many words a part has room for.
fn size_of(sheet: &[u64], rooms: &[usize; PARTS], columns: &[usize; PARTS], part: usize) -> usize
    requires { GoodSheet sheet.now × ((rooms.now ≡ rooms_of (sheet_of sheet.now))
        × ((columns.now ≡ columns_of (sheet_of sheet.now)) × (part ≤ table_count sheet.now))) }
    ensures { (result ≡ size (sheet_of sheet.now) part) × (result ≤ 65536) }
{
    rooms[part] * columns[part]
}

// Where each part begins: behind the nine counts and the parts before it. Behind the list stands the store's end.
fn starts_of(sheet: &[u64], rooms: &[usize; PARTS], columns: &[usize; PARTS]) -> [usize; PARTS + 1]
    requires { GoodSheet sheet.now × ((rooms.now ≡ rooms_of (sheet_of sheet.now)) × (columns.now ≡ columns_of (sheet_of sheet.now))) }
    ensures { result ≡ starts_of (sheet_of sheet.now) }
{
    let m = sheet::tables(sheet) + 1;
    let mut r = [0usize; PARTS + 1];
    let mut at: usize = PARTS;
    for part in 0..m {
        r[part] = at;
        at += size_of(sheet, rooms, columns, part);
    }
    r[m] = at;
    r
}

// The plan of a good sheet.
fn plan_for(sheet: &[u64]) -> Plan
    requires { GoodSheet sheet.now }
    ensures { result ≡ plan_for (sheet_of sheet.now) }
{
    let tables = sheet::tables(sheet);
    let root = derive::root_of(sheet);
    let kept = kept_marks(sheet);
    let shows = shows_marks(sheet);
    let mut shown = [0usize; PLACES];
    let mut places = [0usize; PLACES];
    lay_rows(&shows, tables, &mut shown, &mut places);
    let columns = columns_of(sheet, &kept, &shows);
    let rooms = rooms_of(sheet);
    let starts = starts_of(sheet, &rooms, &columns);
    let store = starts[tables + 1];
    let order = order_of(sheet, root);
    Plan {
        tables,
        root,
        store,
        kept,
        shows,
        shown,
        columns,
        rooms,
        starts,
        order,
        places,
    }
}

// The plan of a sheet, if it is not refused.
pub fn check(sheet: &[u64]) -> Result<Plan, Refusal>
    ensures { result ≡ checked_of sheet.now }
{
    sheet::verdict_of(sheet)?;
    Ok(plan_for(sheet))
}
