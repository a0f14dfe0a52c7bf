// The face: the calls in one place, which oratjolet_c exports to C and Rust. A call's result is its number; what else it answers goes to words that the
// caller lends.
#![tactic(auto)]

ghost use Rattle.std.specs.Prelude.{◌≡◌, ◌+◌, ◌*◌, ◌≤◌, ◌++◌, Ok, length};
ghost use Rattle.meaning.specs.Limits.{most_tables, most_places};
ghost use Rattle.meaning.specs.Change.{change};
ghost use Rattle.meaning.specs.Fill.{fill};
ghost use Rattle.meaning.specs.Base.{change_of};
ghost use Rattle.text.specs.Writing.{PutAt};
ghost use Rattle.oratjolet.specs.Exports.{plan_length, plan_words, PlanLeft, StretchLeft, Told, Left};

use plan_answer::PlanAnswer;
use sheet::{PLACES, Refusal, TABLES};
use store::Done;
use text::put;

// What the plan call answers: four numbers, a mark for each table, three sets of marks, and where each table's part begins and its room.
pub const PLAN_WORDS: usize = 4 + TABLES + 3 * PLACES + 2 * TABLES;

// Writes the three sets of marks.
fn put_sets(answer: &PlanAnswer, out: &mut [u64], at: usize) -> usize
    requires { at + 3 * most_places ≤ length out.old }
    ensures put_at { PutAt out.old at (answer.now.columns ++ answer.now.dep ++ answer.now.need) out.new result }
    ensures value { result ≡ at + 3 * most_places }
{
    let a = put(&answer.columns, out, at);
    let b = put(&answer.dep, out, a);
    put(&answer.need, out, b)
}

// Writes the numbers of each table, which code holds as places: where its part of the store begins, and its room.
fn put_parts(answer: &PlanAnswer, out: &mut [u64], at: usize) -> usize
    requires { at + 2 * most_tables ≤ length out.old }
    ensures put_at { PutAt out.old at (answer.now.starts ++ answer.now.rooms) out.new result }
    ensures value { result ≡ at + 2 * most_tables }
{
    let a = put(&answer.starts.map(|start| start as u64), out, at);
    put(&answer.rooms.map(|room| room as u64), out, a)
}

// Writes a plan field by field, behind the number of an accepted call.
fn put_plan(answer: &PlanAnswer, out: &mut [u64]) -> usize
    requires { length out.old ≡ plan_length }
    ensures put_at { PutAt out.old 0 (plan_words (Ok answer.now)) out.new result }
    ensures value { result ≡ plan_length }
{
    let head = [
        0,
        answer.tables as u64,
        answer.root as u64,
        answer.store as u64,
    ];
    let a = put(&head, out, 0);
    let b = put(&answer.kept, out, a);
    let c = put_sets(answer, out, b);
    put_parts(answer, out, c)
}

// Writes the plan call's answer: a plan, or a refusal's number and zeros.
fn put_answer(answer: Result<PlanAnswer, Refusal>, out: &mut [u64])
    requires { length out.old ≡ plan_length }
    ensures { out.new ≡ plan_words answer }
{
    match answer {
        Ok(a) => {
            put_plan(&a, out);
        }
        Err(refusal) => {
            out.fill(0);
            out[0] = u64::from(refusal);
        }
    }
}

// The plan call: its number, and the whole answer in the lent words.
pub fn oratjolet_plan(sheet: &[u64], answer: &mut [u64; PLAN_WORDS]) -> u64
    ensures { PlanLeft sheet.now result answer.new }
{
    let a = plan_answer::plan_of(sheet);
    put_answer(a, answer);
    answer[0]
}

// The show call: its number, and in the lent words where in the store the rows begin and how many words they are; 0 and 0 if it is refused.
pub fn oratjolet_show(
    sheet: &[u64],
    store: &[u64],
    number: u64,
    first: &mut u64,
    count: &mut u64,
) -> u64
    ensures { StretchLeft sheet.now store.now number result first.new count.new }
{
    let found = store::find_stretch(sheet, store, number);
    let s = found.unwrap_or_default();
    *first = s.first as u64;
    *count = s.count as u64;
    sheet::number_of(found)
}

// What fill and change answer: the number, and in the lent words the rows taken from the list and added to it; 0 and 0 if it is refused.
fn tell(a: Result<Done, Refusal>, taken: &mut u64, added: &mut u64) -> u64
    ensures { Told a result taken.new added.new }
{
    let number = sheet::number_of(a);
    let done = a.unwrap_or_default();
    *taken = done.taken;
    *added = done.added;
    number
}

// The fill call: its number, the rows taken from the list, 0, and those on it, and the store from the base tables.
pub fn oratjolet_fill(
    sheet: &[u64],
    base: &[u64],
    store: &mut [u64],
    taken: &mut u64,
    added: &mut u64,
) -> u64
    ensures { Left (fill sheet.now store.old base.now) result taken.new added.new store.new }
{
    let a = fill::fill(sheet, base, store);
    tell(a, taken, added)
}

// The change call: its number, the rows taken from the list and added to it, and the store brought up to date. The kind is a number, as C has it.
pub fn oratjolet_change(
    sheet: &[u64],
    store: &mut [u64],
    kind: u64,
    table: u64,
    old: &[u64],
    new: &[u64],
    taken: &mut u64,
    added: &mut u64,
) -> u64
    ensures { Left (change sheet.now store.old (change_of kind table old.now new.now))
        result taken.new added.new store.new }
{
    let a = change::change(sheet, store, kind, table, old, new);
    tell(a, taken, added)
}
