// The fill call: the store of a sheet written anew from its base tables, which are tested first.
#![tactic(auto)]

ghost use Rattle.std.specs.Prelude.{◌≡◌, true};
ghost use Rattle.meaning.specs.Sheet.{sheet_of};
ghost use Rattle.meaning.specs.Base.{lawful};
ghost use Rattle.meaning.specs.Fill as Meant;
ghost use Rattle.store.specs.Answers.{Says};
ghost use Rattle.filling.specs.Runs.{good_run};
ghost use Rattle.base_run.specs.Bases.{tables_of};
ghost use Rattle.fill.specs.Tested.{Stored};

use base_run::{Base, Ordered, Tables};
use sheet::{ROWS, Refusal, TABLES};
use sheet_plan::Plan;
use store::Done;

// Fills from lawful base tables. The first pass counts, and where a count exceeds its room nothing is written.
fn fill_lawful(base: &Base<'_>, plan: &Plan, store: &mut [u64]) -> Result<Done, Refusal>
    requires stored { Stored base.now.ordered.tables.sheet.now plan.now store.old }
    requires lawful { let tables = base.now.ordered.tables in lawful (sheet_of tables.sheet.now) (tables_of tables.sheet.now tables.run.now) ≡ true }
    ensures { let tables = base.now.ordered.tables in Says (Meant.fill tables.sheet.now store.old tables.run.now) result store.new }
{
    if !fill_sides::sides_fit(base, plan) {
        return Err(Refusal::NoRoom);
    }
    let list = store::part_of(plan, plan.tables);
    let added = fill_list::count_list(base, plan.root);
    if list.room < added {
        return Err(Refusal::NoRoom);
    }
    store.fill(0);
    fill_sides::write_sides(base, plan, store);
    fill_list::write_list(&base.ordered.tables, plan, store, list);
    Ok(Done {
        taken: 0,
        added: added as u64,
    })
}

// Fills from a base run with good counts: its row numbers are put in key order, 65,535 places for each table, and its tables tested.
fn fill_run(sheet: &[u64], plan: &Plan, run: &[u64], store: &mut [u64]) -> Result<Done, Refusal>
    requires stored { Stored sheet.now plan.now store.old }
    requires run_value { good_run (sheet_of sheet.now) run.now ≡ true }
    ensures { Says (Meant.fill sheet.now store.old run.now) result store.new }
{
    let starts = base_run::starts_of(sheet, run);
    let tables = Tables {
        sheet,
        run,
        starts: &starts,
    };
    let mut numbers = [0u16; TABLES * ROWS];
    let mut spare = [0u16; ROWS / 2 + 1];
    tables.order_tables(&mut numbers, &mut spare);
    let ordered = Ordered {
        tables,
        numbers: &numbers,
    };
    if !ordered.is_lawful() {
        return Err(Refusal::BadBase);
    }
    let base = Base { ordered };
    fill_lawful(&base, plan, store)
}

// Fills the store from base tables: "fill tests 1, 2, 3, 4, 10, 9", and does not read the old store.
pub fn fill(sheet: &[u64], base: &[u64], store: &mut [u64]) -> Result<Done, Refusal>
    ensures { Says (Meant.fill sheet.now store.old base.now) result store.new }
{
    let plan = sheet_plan::check(sheet)?;
    if store.len() != plan.store {
        return Err(Refusal::WrongLength);
    }
    if !base_run::run_ok(sheet, base) {
        return Err(Refusal::BadBase);
    }
    fill_run(sheet, &plan, base, store)
}
