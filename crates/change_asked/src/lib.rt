// What a change asks, against the sheet alone: its kind, its table, its rows, and the columns that an update may not alter (refusals 5 and 6).
#![tactic(auto)]

mod kind;

ghost use Rattle.std.specs.Prelude.{◌≡◌, ◌&&◌, ℕ, ◌+◌, ◌<◌, ◌≤◌, eqb, length};
ghost use Rattle.lists.specs.Loops.{every, some};
ghost use Rattle.meaning.specs.Sheet.{condition_count};
ghost use Rattle.meaning.specs.Base.{change_of};
ghost use Rattle.sheet.specs.Rules.{Counts};
ghost use Rattle.sheet.specs.Tree.{GoodSheet};
ghost use Rattle.change_asked.specs.Kinds.{kind_number};
ghost use Rattle.change_asked.specs.Asked.{condition_on, tied_no, stays_at, one_row, two_rows, asked_of};

pub use kind::Kind;
use sheet::Refusal;

// Whether a condition speaks of column c of table t.
fn in_condition(sheet: &[u64], t: usize, c: usize) -> bool
    requires { Counts sheet.now }
    ensures { result ≡ some (condition_on sheet.now t c) (condition_count sheet.now) }
{
    (0..sheet::conditions(sheet)).any(|k| {
        let condition = sheet::condition_no(sheet, k);
        condition.table == t && condition.column == c
    })
}

// Whether column c of table t is tied: in a condition, or the child column of an edge.
pub fn is_tied(sheet: &[u64], t: usize, c: usize) -> bool
    requires { Counts sheet.now }
    ensures { result ≡ tied_no sheet.now t c }
{
    in_condition(sheet, t, c) || derive::is_child_column(sheet, t, c)
}

// Whether no tied column of table t differs between the two rows.
fn tied_stay(sheet: &[u64], t: usize, old: &[u64], new: &[u64]) -> bool
    requires counts { Counts sheet.now }
    requires len { length old.now ≡ length new.now }
    ensures { result ≡ every (stays_at sheet.now t old.now new.now) (length old.now) }
{
    (0..old.len()).all(|c| old[c] == new[c] || !is_tied(sheet, t, c))
}

// An insert's or a delete's rows: one of the table's width, and the unused one has length 0.
fn one_row(unused: &[u64], row: &[u64], w: usize) -> Result<(), Refusal>
    ensures { result ≡ one_row (length unused.now) (length row.now) w }
{
    if unused.len() != 0 {
        return Err(Refusal::BadRequest);
    }
    if row.len() != w {
        return Err(Refusal::BadRequest);
    }
    Ok(())
}

// An update's rows: both of the table's width, with one key, and no tied column altered.
fn two_rows(sheet: &[u64], t: usize, old: &[u64], new: &[u64], w: usize) -> Result<(), Refusal>
    requires counts { Counts sheet.now }
    requires le_w { 1 ≤ w }
    ensures { result ≡ two_rows sheet.now t old.now new.now w }
{
    if old.len() != w {
        return Err(Refusal::BadRequest);
    }
    if new.len() != w {
        return Err(Refusal::BadRequest);
    }
    if old[0] != new[0] {
        return Err(Refusal::BadRequest);
    }
    if !tied_stay(sheet, t, old, new) {
        return Err(Refusal::AltersTied);
    }
    Ok(())
}

// The verdict on a change before the store is read.
pub fn asked(sheet: &[u64], kind: Kind, table: u64, old: &[u64], new: &[u64]) -> Result<(), Refusal>
    requires { GoodSheet sheet.now }
    ensures { result ≡ asked_of sheet.now (change_of (kind_number kind) table old.now new.now) }
{
    if sheet::tables(sheet) as u64 <= table {
        return Err(Refusal::BadRequest);
    }
    let t = table as usize;
    let w = sheet::width_no(sheet, t);
    match kind {
        Kind::Insert => one_row(old, new, w),
        Kind::Delete => one_row(new, old, w),
        Kind::Update => two_rows(sheet, t, old, new, w),
    }
}
