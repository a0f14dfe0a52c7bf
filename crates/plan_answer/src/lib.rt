// The plan call: any run of words to the whole plan, or to its refusal.
#![tactic(auto)]

ghost use Rattle.std.specs.Prelude.{◌≡◌, ◌≤◌, length};
ghost use Rattle.meaning.specs.Limits.{most_tables};
ghost use Rattle.meaning.specs.Plan.{plan};
ghost use Rattle.meaning.specs.Sheet.{sheet_of};
ghost use Rattle.sheet.specs.Tree.{GoodSheet};
ghost use Rattle.sheet_plan.specs.Planned.{Lengths};
ghost use Rattle.plan_answer.specs.Answers.{dep_of, need_of, kept_columns, first_parts, answer_for, answer_of};

use sheet::{COLUMNS, PLACES, Refusal, TABLES};
use sheet_plan::Plan;

// What is printed of the plan, with each table's place and room.
#[derive(Clone, Copy)]
pub struct PlanAnswer {
    pub tables: usize,
    pub root: usize,
    // the store's length
    pub store: usize,
    // of each table: 1 if it has a side table
    pub kept: [u64; TABLES],
    // 1 at 8t + c if table t's side table shows column c; at 8t + u if u is in Dep(t), in Need(t)
    pub columns: [u64; PLACES],
    pub dep: [u64; PLACES],
    pub need: [u64; PLACES],
    // where table t's part of the store begins, and for how many rows it has room
    pub starts: [usize; TABLES],
    pub rooms: [usize; TABLES],
}

// 1 at 8t + u if u is in Dep(t).
fn dep_marks(sheet: &[u64]) -> [u64; PLACES]
    requires { GoodSheet sheet.now }
    ensures { result ≡ dep_of (sheet_of sheet.now) }
{
    std::array::from_fn(|i| u64::from(derive::depends(sheet, i / TABLES, i % TABLES, 1)))
}

// 1 at 8t + u if there is a table t, and u is in its Need.
fn need_marks(sheet: &[u64]) -> [u64; PLACES]
    requires { GoodSheet sheet.now }
    ensures { result ≡ need_of (sheet_of sheet.now) }
{
    let n = sheet::tables(sheet);
    std::array::from_fn(|i| {
        let t = i / TABLES;
        u64::from(t < n && derive::needs(sheet, t, i % TABLES, n))
    })
}

// The marks of the shown columns: none for an unkept table.
fn kept_columns(kept: &[u64; TABLES], shows: &[u64; PLACES]) -> [u64; PLACES]
    ensures { result ≡ kept_columns kept.now shows.now }
{
    std::array::from_fn(|i| if kept[i / COLUMNS] == 1 { shows[i] } else { 0 })
}

// What stands at the first n of the parts: the tables'.
fn first_parts(parts: &[usize], n: usize) -> [usize; TABLES]
    requires n_le_most_tables { n ≤ most_tables }
    requires n_in_bounds { n ≤ length parts.now }
    ensures { result ≡ first_parts parts.now n }
{
    std::array::from_fn(|t| if t < n { parts[t] } else { 0 })
}

// The answer from the plan that every call has, and the marks of Dep and Need, which this call alone shows.
fn answer_for(p: Plan, dep: [u64; PLACES], need: [u64; PLACES]) -> PlanAnswer
    requires tables_le_most_tables { p.tables ≤ most_tables }
    requires lengths { Lengths p }
    ensures { result ≡ answer_for p dep need }
{
    PlanAnswer {
        tables: p.tables,
        root: p.root,
        store: p.store,
        kept: p.kept,
        columns: kept_columns(&p.kept, &p.shows),
        dep,
        need,
        starts: first_parts(&p.starts, p.tables),
        rooms: first_parts(&p.rooms, p.tables),
    }
}

// The plan call.
pub fn plan_of(sheet: &[u64]) -> Result<PlanAnswer, Refusal>
    ensures { result ≡ answer_of (plan sheet.now) }
{
    let p = sheet_plan::check(sheet)?;
    let dep = dep_marks(sheet);
    let need = need_marks(sheet);
    Ok(answer_for(p, dep, need))
}
