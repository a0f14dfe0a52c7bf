// The changed table's own side table: what the tests ask of it, and its row put in, taken out or replaced. An unkept table has none.
#![tactic(auto)]

ghost use Rattle.std.specs.Prelude.{◌≡◌, ℕ, ◌<◌, ◌≤◌, T, length, take};
ghost use Rattle.rows.specs.Rows.{pick};
ghost use Rattle.meaning.specs.Limits.{most_columns};
ghost use Rattle.meaning.specs.Sheet.{sheet_of, width};
ghost use Rattle.meaning.specs.Plan.{kept, shown};
ghost use Rattle.meaning.specs.Store.{model_of, sound};
ghost use Rattle.meaning.specs.Change.{qualifies, new_key, old_row};
ghost use Rattle.store.specs.Plans.{GoodPlan};
ghost use Rattle.side_table.specs.Sides.{found_side, EntryOf, Modelled, has_room, Replaceable, SidePut, SideTaken, SideReplaced};

use sheet::COLUMNS;
use sheet_plan::Plan;
use store::Part;

// r's shown columns go into the lent row.
pub fn side_row(sheet: &[u64], plan: &Plan, t: usize, r: &[u64], row: &mut [u64])
    requires good_plan { GoodPlan (sheet_of sheet.now) plan.now }
    requires t_bound { t < (sheet_of sheet.now).n }
    requires r_len { length r.now ≡ width (sheet_of sheet.now) t }
    requires row_len { length row.old ≡ length (shown (sheet_of sheet.now) t) }
    ensures { row.new ≡ pick (shown (sheet_of sheet.now) t) r.now }
{
    for j in 0..row.len() {
        row[j] = r[plan.shown[COLUMNS * t + j]];
    }
}

// A row for t's side table: the part where it belongs, and its shown columns with zeros behind them.
#[derive(Clone, Copy)]
struct Entry {
    part: Part,
    words: [u64; COLUMNS],
}

impl Entry {
    // The shown columns alone.
    fn row(&self) -> &[u64]
        requires { self.now.part.columns ≤ most_columns }
        ensures { result.now ≡ take self.now.part.columns self.now.words }
    {
        &self.words[..self.part.columns]
    }
}

// r's row for t's side table, if t is kept.
fn entry_of(sheet: &[u64], plan: &Plan, t: usize, r: &[u64]) -> Option<Entry>
    requires good_plan { GoodPlan (sheet_of sheet.now) plan.now }
    requires t_bound { t < (sheet_of sheet.now).n }
    requires r_len { length r.now ≡ width (sheet_of sheet.now) t }
    ensures { EntryOf (sheet_of sheet.now) t r.now result }
{
    if plan.kept[t] == 0 {
        return None;
    }
    let part = store::part_of(plan, t);
    let mut words = [0u64; COLUMNS];
    side_row(sheet, plan, t, r, &mut words[..part.columns]);
    Some(Entry { part, words })
}

// Where r's shown columns stand in the kept side table of t.
fn find_side(sheet: &[u64], plan: &Plan, store: &[u64], t: usize, r: &[u64]) -> Option<usize>
    requires good_plan { GoodPlan (sheet_of sheet.now) plan.now }
    requires t_bound { t < (sheet_of sheet.now).n }
    requires r_len { length r.now ≡ width (sheet_of sheet.now) t }
    requires t { T (kept (sheet_of sheet.now) t) }
    requires modelled { Modelled (sheet_of sheet.now) store.now }
    ensures { result ≡ found_side (sheet_of sheet.now) store.now t r.now }
{
    let entry = entry_of(sheet, plan, t, r)?;
    store::find_row(store, entry.part, entry.row())
}

// Whether r's key is new in t's side table.
pub fn new_key(sheet: &[u64], plan: &Plan, store: &[u64], t: usize, r: &[u64]) -> bool
    requires good_plan { GoodPlan (sheet_of sheet.now) plan.now }
    requires t_bound { t < (sheet_of sheet.now).n }
    requires r_len { length r.now ≡ width (sheet_of sheet.now) t }
    requires t { T (sound (sheet_of sheet.now) store.now) }
    ensures { result ≡ new_key (model_of (sheet_of sheet.now) store.now) t r.now }
{
    if plan.kept[t] == 0 {
        return true;
    }
    let p = store::part_of(plan, t);
    store::find_key(store, p, r[0]).is_none()
}

// Whether t's side table agrees that r is there: its shown columns if it is qualified, and not even its key if it isn't.
pub fn old_row(
    sheet: &[u64],
    plan: &Plan,
    store: &[u64],
    t: usize,
    r: &[u64],
    qualified: bool,
) -> bool
    requires good_plan { GoodPlan (sheet_of sheet.now) plan.now }
    requires t_bound { t < (sheet_of sheet.now).n }
    requires r_len { length r.now ≡ width (sheet_of sheet.now) t }
    requires t { T (sound (sheet_of sheet.now) store.now) }
    requires qualified_value { qualified ≡ qualifies (sheet_of sheet.now) (model_of (sheet_of sheet.now) store.now) t r.now }
    ensures { result ≡ old_row (sheet_of sheet.now) (model_of (sheet_of sheet.now) store.now) t r.now }
{
    if plan.kept[t] == 0 {
        return true;
    }
    if !qualified {
        return new_key(sheet, plan, store, t, r);
    }
    find_side(sheet, plan, store, t, r).is_some()
}

// Whether t's side table has room for one more row.
pub fn has_room(sheet: &[u64], plan: &Plan, store: &[u64], t: usize) -> bool
    requires good_plan { GoodPlan (sheet_of sheet.now) plan.now }
    requires t_bound { t < (sheet_of sheet.now).n }
    requires t { T (sound (sheet_of sheet.now) store.now) }
    ensures { result ≡ has_room (sheet_of sheet.now) store.now t }
{
    if plan.kept[t] == 0 {
        return true;
    }
    (store[t] as usize) < plan.rooms[t]
}

// r's shown columns come into t's side table. The three that write differ in one call each, which their names say better than a parameter.
pub fn put_side(sheet: &[u64], plan: &Plan, store: &mut [u64], t: usize, r: &[u64])
    requires good_plan { GoodPlan (sheet_of sheet.now) plan.now }
    requires t_bound { t < (sheet_of sheet.now).n }
    requires r_len { length r.now ≡ width (sheet_of sheet.now) t }
    requires modelled { Modelled (sheet_of sheet.now) store.old }
    requires t { T (has_room (sheet_of sheet.now) store.old t) }
    ensures { SidePut (sheet_of sheet.now) t r.now store.old store.new }
{
    if let Some(entry) = entry_of(sheet, plan, t, r) {
        store::put_row(store, entry.part, entry.row());
    }
}

// r's shown columns go out of t's side table.
pub fn take_side(sheet: &[u64], plan: &Plan, store: &mut [u64], t: usize, r: &[u64])
    requires good_plan { GoodPlan (sheet_of sheet.now) plan.now }
    requires t_bound { t < (sheet_of sheet.now).n }
    requires r_len { length r.now ≡ width (sheet_of sheet.now) t }
    requires modelled { Modelled (sheet_of sheet.now) store.old }
    ensures { SideTaken (sheet_of sheet.now) t r.now store.old store.new }
{
    if let Some(entry) = entry_of(sheet, plan, t, r) {
        store::take_row(store, entry.part, entry.row());
    }
}

// In t's side table the shown columns of a row with the same key stand over old's.
pub fn replace_side(
    sheet: &[u64],
    plan: &Plan,
    store: &mut [u64],
    t: usize,
    old: &[u64],
    new: &[u64],
)
    requires good_plan { GoodPlan (sheet_of sheet.now) plan.now }
    requires t_bound { t < (sheet_of sheet.now).n }
    requires len { length old.now ≡ width (sheet_of sheet.now) t }
    requires len_2 { length new.now ≡ width (sheet_of sheet.now) t }
    requires modelled { Modelled (sheet_of sheet.now) store.old }
    requires replaceable { Replaceable (sheet_of sheet.now) store.old t old.now new.now }
    ensures { SideReplaced (sheet_of sheet.now) t old.now new.now store.old store.new }
{
    if let Some(entry) = entry_of(sheet, plan, t, new) {
        if let Some(at) = find_side(sheet, plan, store, t, old) {
            store::replace_row(store, entry.part, at, entry.row());
        }
    }
}
