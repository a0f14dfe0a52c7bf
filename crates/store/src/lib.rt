// The store of a good sheet: sound or not, its parts shown and written, and what a call that may write it answers.
#![tactic(auto)]

ghost use Rattle.std.specs.Prelude.{◌≡◌, true, cond, ◌+◌, ◌<◌, ◌≤◌, T, eqb, length, set, take};
ghost use Rattle.lists.specs.Totals.{one};
ghost use Rattle.rows.specs.Rows.{rising, put_row, take_row};
ghost use Rattle.rows.specs.Ranks.{found_row, found_key};
ghost use Rattle.rows.specs.Marks.{spared, is_marked, Numbers, Run, Marking};
ghost use Rattle.meaning.specs.Limits.{most_tables};
ghost use Rattle.store.specs.Tests.{absent_zero};
ghost use Rattle.store.specs.Parts.{stop_of, words_in, count_in, rows_in, sound_in, Within, Kept, Wrote};
ghost use Rattle.store.specs.Shows.{Stands, HandsBack};
ghost use Rattle.store.specs.Plans.{OfSheet, part_of, TableIs, SidesIs, SoundIs};

use sheet::{PARTS, Refusal, TABLES};
use sheet_plan::Plan;

// What an accepted call did to the list: how many rows it took from it, and how many it added.
#[derive(Clone, Copy, PartialEq, Eq, Debug, Default)]
pub struct Done {
    pub taken: u64,
    pub added: u64,
}

// Where a part of the store lies: the place of its count, of its first word, its columns and its room.
#[derive(Clone, Copy)]
pub struct Part {
    pub slot: usize,
    pub start: usize,
    pub columns: usize,
    pub room: usize,
}

impl Part {
    // How many rows stand in it.
    pub fn count(self, store: &[u64]) -> usize
        requires { Within self store.now }
        ensures { result ≡ count_in self store.now }
    {
        store[self.slot] as usize
    }

    // The place behind its last word.
    pub fn end(self) -> usize
        requires { stop_of self ≤ usize.MAX }
        ensures { result ≡ stop_of self }
    {
        self.start + self.room * self.columns
    }

    // Its words: its rows, and what room is left behind them.
    pub fn words<'a>(self, store: &'a [u64]) -> &'a [u64]
        requires { Within self store.now }
        ensures { result.now ≡ words_in self store.now }
    {
        &store[self.start..self.end()]
    }
}

// Where the rows stand that a show call hands back: their first word, and how many words they are.
#[derive(Clone, Copy, PartialEq, Eq, Debug, Default)]
pub struct Stretch {
    pub first: usize,
    pub count: usize,
}

// Where part `number` lies: a table's, or at n (tables) the list's.
pub fn part_of(plan: &Plan, number: usize) -> Part
    requires number_le_tables { number ≤ plan.now.tables }
    requires tables_le_most_tables { plan.now.tables ≤ most_tables }
    ensures { result ≡ part_of plan.now number }
{
    Part {
        slot: if number < plan.tables { number } else { TABLES },
        start: plan.starts[number],
        columns: plan.columns[number],
        room: plan.rooms[number],
    }
}

// Whether the counts of the tables from n to 7, which the sheet does not have, are 0.
fn absent_zero(store: &[u64], n: usize) -> bool
    requires few { n ≤ most_tables }
    requires long { most_tables ≤ length store.now }
    ensures { result ≡ absent_zero n store.now }
{
    store[n..TABLES].iter().all(|&count| count == 0)
}

// Whether a part is sound: its count within its room, its rows rising, the rest zero, and in a side table no key twice. `keyed` is the definition's
// own (`sound_in`).
fn part_sound(store: &[u64], p: Part, keyed: bool) -> bool
    requires within { Within p store.now }
    requires columns_nonzero { keyed ≡ true → 0 < p.columns }
    ensures { result ≡ sound_in p keyed store.now }
{
    if keyed {
        return rows::sound_side(p.words(store), p.columns, p.room, p.count(store));
    }
    rows::sound_region(p.words(store), p.columns, p.room, p.count(store))
}

// Whether table t is sound: its part, or if it is unkept its count, which is then 0.
fn table_sound(plan: &Plan, store: &[u64], t: usize) -> bool
    requires of_sheet { OfSheet plan.now }
    requires store_len { length store.now ≡ plan.now.store }
    requires t_lt_tables { t < plan.now.tables }
    ensures { TableIs plan.now store.now t result }
{
    let p = part_of(plan, t);
    if plan.kept[t] == 0 {
        return p.count(store) == 0;
    }
    part_sound(store, p, true)
}

// Whether all tables are sound.
fn sides_sound(plan: &Plan, store: &[u64]) -> bool
    requires of_sheet { OfSheet plan.now }
    requires store_len { length store.now ≡ plan.now.store }
    ensures { SidesIs plan.now store.now result }
{
    (0..plan.tables).all(|t| table_sound(plan, store, t))
}

// Refusal 7: whether any run of words is a sound store of the sheet of which this is the plan.
pub fn is_sound(plan: &Plan, store: &[u64]) -> bool
    requires { OfSheet plan.now }
    ensures { SoundIs plan.now store.now result }
{
    if store.len() != plan.store {
        return false;
    }
    if !absent_zero(store, plan.tables) {
        return false;
    }
    if !sides_sound(plan, store) {
        return false;
    }
    part_sound(store, part_of(plan, plan.tables), false)
}

// Where the rows of part `number` stand, a table's or at n the list's: none for an unkept table.
pub fn find_stretch(sheet: &[u64], store: &[u64], number: u64) -> Result<Stretch, Refusal>
    ensures { Stands sheet.now store.now number result }
{
    let plan = sheet_plan::check(sheet)?;
    if store.len() != plan.store {
        return Err(Refusal::WrongLength);
    }
    let n = plan.tables as u64;
    if n < number {
        return Err(Refusal::BadRequest);
    }
    if !is_sound(&plan, store) {
        return Err(Refusal::NotSound);
    }
    let p = part_of(&plan, number as usize);
    Ok(Stretch {
        first: p.start,
        count: p.count(store) * p.columns,
    })
}

// The rows of part `number`: the stretch of the store that holds them.
pub fn show<'a>(sheet: &[u64], store: &'a [u64], number: u64) -> Result<&'a [u64], Refusal>
    ensures { HandsBack sheet.now store.entry number result }
{
    let s = find_stretch(sheet, store, number)?;
    let from = s.first;
    let to = from + s.count;
    Ok(&store[from..to])
}

// Where the row with this key stands in a side table's part.
pub fn find_key(store: &[u64], p: Part, key: u64) -> Option<usize>
    requires kept { Kept p store.now }
    requires columns_nonzero { 0 < p.columns }
    ensures { result ≡ found_key key (rows_in p store.now) }
{
    rows::find_key(p.words(store), p.columns, p.count(store), key)
}

// Where the first row that equals r stands in the part.
pub fn find_row(store: &[u64], p: Part, r: &[u64]) -> Option<usize>
    requires kept { Kept p store.now }
    requires r_len { length r.now ≡ p.columns }
    ensures { result ≡ found_row r.now (rows_in p store.now) }
{
    rows::find(p.words(store), p.columns, p.count(store), r)
}

// Marks one more of the part's rows that equal r, if one is left without a mark: its number comes into the run of the first `many` numbers.
pub fn mark_row(store: &[u64], p: Part, r: &[u64], numbers: &mut [u16], many: usize) -> bool
    requires kept { Kept p store.now }
    requires r_len { length r.now ≡ p.columns }
    requires run { Run (count_in p store.now) numbers.old many }
    ensures { Marking r.now (rows_in p store.now)
        (take many numbers.old) (take (many + one result) numbers.new) result }
{
    rows::mark(p.words(store), p.columns, p.count(store), r, numbers, many)
}

// r comes into the part at its place; the count is one more.
pub fn put_row(store: &mut [u64], p: Part, r: &[u64])
    requires kept { Kept p store.old }
    requires store_bound { count_in p store.old < p.room }
    requires r_len { length r.now ≡ p.columns }
    ensures { Wrote p (put_row r.now (rows_in p store.old)) store.old store.new }
{
    let count = p.count(store);
    rows::put(&mut store[p.start..p.end()], p.columns, count, r);
    store[p.slot] = (count + 1) as u64;
}

// One row that equals r, if there is one, goes out of the part.
pub fn take_row(store: &mut [u64], p: Part, r: &[u64])
    requires kept { Kept p store.old }
    requires r_len { length r.now ≡ p.columns }
    ensures { Wrote p (take_row r.now (rows_in p store.old)) store.old store.new }
{
    let count = p.count(store);
    let left = rows::take(&mut store[p.start..p.end()], p.columns, count, r);
    store[p.slot] = left as u64;
}

// r stands over row `at` of the part, where it keeps the order.
pub fn replace_row(store: &mut [u64], p: Part, at: usize, r: &[u64])
    requires kept { Kept p store.old }
    requires at_bound { at < count_in p store.old }
    requires r_len { length r.now ≡ p.columns }
    requires t { T (rising (set (rows_in p store.old) at r.now)) }
    ensures { Wrote p (set (rows_in p store.old) at r.now) store.old store.new }
{
    let count = p.count(store);
    rows::replace(&mut store[p.start..p.end()], p.columns, count, at, r);
}

// The rows of the run's numbers go out of the part, in one pass.
pub fn take_marked(store: &mut [u64], p: Part, numbers: &[u16])
    requires kept { Kept p store.old }
    requires numbers { Numbers (count_in p store.old) numbers.now }
    ensures { Wrote p (spared (is_marked numbers.now) (rows_in p store.old)) store.old store.new }
{
    let count = p.count(store);
    rows::take_marked(&mut store[p.start..p.end()], p.columns, count, numbers);
    store[p.slot] = (count - numbers.len()) as u64;
}
