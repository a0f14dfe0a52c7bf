// An update below its tests 1 to 7, on a sound store: contradiction, and then the list's rows and the side row are replaced.
#![tactic(auto)]

ghost use Rattle.std.specs.Prelude.{◌≡◌, ◌<◌, length};
ghost use Rattle.meaning.specs.Limits.{most_tables, most_room};
ghost use Rattle.meaning.specs.Sheet.{sheet_of};
ghost use Rattle.laws.specs.Updates.{Tied};
ghost use Rattle.walk.specs.Grounds.{Lent};
ghost use Rattle.store.specs.Parts.{Lies};
ghost use Rattle.change_laws.specs.Ready.{Ready};
ghost use Rattle.change_update.specs.Updates.{can_take_by, ReplacedTaken, Updates};

use sheet::{ROOM, Refusal};
use sheet_plan::Plan;
use store::{Done, Part};

// Whether ways through a row of this table can be taken: it is the root, or the root has a side table.
fn can_take(plan: &Plan, table: usize) -> bool
    requires { plan.now.root < most_tables }
    ensures { result ≡ can_take_by plan.now table }
{
    table == plan.root || plan.kept[plan.root] != 0
}

// Marks the list rows that an update of a row replaces: those of the ways through it, or, if no way can be taken, those found by its key.
fn mark_replaced(
    sheet: &[u64],
    plan: &Plan,
    store: &[u64],
    list: Part,
    table: usize,
    row: &[u64],
    marked: &mut [u16],
) -> Option<usize>
    requires ready { Ready sheet.now store.now plan.now }
    requires lies { Lies (sheet_of sheet.now) (sheet_of sheet.now).n list }
    requires lent { Lent sheet.now table row.now }
    requires marked_len { length marked.old ≡ most_room }
    ensures { ReplacedTaken sheet.now store.now table row.now marked.new result }
{
    if can_take(plan, table) {
        return change_taken::mark_ways(sheet, plan, store, list, table, row, marked);
    }
    change_taken::mark_found(sheet, plan, store, list, table, row, marked)
}

// Old becomes new in its table, if it is qualified: the side row is replaced, and the list rows of the ways through it, or found by its key.
pub fn update(
    sheet: &[u64],
    plan: &Plan,
    store: &mut [u64],
    table: usize,
    old: &[u64],
    new: &[u64],
) -> Result<Done, Refusal>
    requires ready { Ready sheet.now store.old plan.now }
    requires lent { Lent sheet.now table old.now }
    requires lent_2 { Lent sheet.now table new.now }
    requires tied { Tied (sheet_of sheet.now) table old.now new.now }
    ensures { Updates sheet.now store.old table old.now new.now result store.new }
{
    let qualified = walk::is_qualified(sheet, plan, store, table, old);
    if !side_table::old_row(sheet, plan, store, table, old, qualified) {
        return Err(Refusal::Contradiction);
    }
    if !qualified {
        return Ok(Done { taken: 0, added: 0 });
    }
    let list = store::part_of(plan, plan.tables);
    let mut marked = [0u16; ROOM];
    let count = mark_replaced(sheet, plan, store, list, table, old, &mut marked);
    let k = count.ok_or(Refusal::Contradiction)?;
    list_part::replace_rows(sheet, store, list, &marked[..k], table, old, new);
    side_table::replace_side(sheet, plan, store, table, old, new);
    Ok(Done {
        taken: k as u64,
        added: k as u64,
    })
}
