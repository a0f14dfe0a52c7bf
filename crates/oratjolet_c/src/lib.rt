// The calls as C sees them, in include/oratjolet.h: each export is the call of oratjolet that has its name, and promises the same.
#![tactic(auto)]

ghost use Rattle.meaning.specs.Base.{change_of};
ghost use Rattle.meaning.specs.Change.{change};
ghost use Rattle.meaning.specs.Fill.{fill};
ghost use Rattle.oratjolet.specs.Exports.{PlanLeft, StretchLeft, Left};

use oratjolet::PLAN_WORDS;

// The plan call: its number, and the whole answer in the lent words.
#[unsafe(no_mangle)]
pub extern "C" fn oratjolet_plan(sheet: &[u64], answer: &mut [u64; PLAN_WORDS]) -> u64
    ensures { PlanLeft sheet.now result answer.new }
{
    oratjolet::oratjolet_plan(sheet, answer)
}

// The show call: its number, and in the lent words where in the store the rows begin and how many words they are.
#[unsafe(no_mangle)]
pub extern "C" fn oratjolet_show(
    sheet: &[u64],
    store: &[u64],
    number: u64,
    first: &mut u64,
    count: &mut u64,
) -> u64
    ensures { StretchLeft sheet.now store.now number result first.new count.new }
{
    oratjolet::oratjolet_show(sheet, store, number, first, count)
}

// The fill call: its number, the rows taken from the list, 0, and those on it, and the store from the base tables.
#[unsafe(no_mangle)]
pub extern "C" fn oratjolet_fill(
    sheet: &[u64],
    base: &[u64],
    store: &mut [u64],
    taken: &mut u64,
    added: &mut u64,
) -> u64
    ensures { Left (fill sheet.now store.old base.now) result taken.new added.new store.new }
{
    oratjolet::oratjolet_fill(sheet, base, store, taken, added)
}

// The change call: its number, the rows taken from the list and added to it, and the store brought up to date.
#[unsafe(no_mangle)]
pub extern "C" fn oratjolet_change(
    sheet: &[u64],
    store: &mut [u64],
    kind: u64,
    table: u64,
    old: &[u64],
    new: &[u64],
    taken: &mut u64,
    added: &mut u64,
) -> u64
    ensures { Left (change sheet.now store.old (change_of kind table old.now new.now))
        result taken.new added.new store.new }
{
    oratjolet::oratjolet_change(sheet, store, kind, table, old, new, taken, added)
}
