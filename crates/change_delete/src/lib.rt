// A delete below its tests 1 to 7, on a sound store: contradiction, and then the list's rows and the side row leave.
#![tactic(auto)]

ghost use Rattle.walk.specs.Grounds.{Lent};
ghost use Rattle.change_laws.specs.Ready.{Ready};
ghost use Rattle.change_delete.specs.Deletes.{Deletes};

use sheet::{ROOM, Refusal};
use sheet_plan::Plan;
use store::Done;

// Row leaves its table, if it is qualified: its shown columns the side table, and a row for each way through it the list.
pub fn delete(
    sheet: &[u64],
    plan: &Plan,
    store: &mut [u64],
    table: usize,
    row: &[u64],
) -> Result<Done, Refusal>
    requires ready { Ready sheet.now store.old plan.now }
    requires lent { Lent sheet.now table row.now }
    ensures { Deletes sheet.now store.old table row.now result store.new }
{
    let qualified = walk::is_qualified(sheet, plan, store, table, row);
    if !side_table::old_row(sheet, plan, store, table, row, qualified) {
        return Err(Refusal::Contradiction);
    }
    if !qualified {
        return Ok(Done { taken: 0, added: 0 });
    }
    let list = store::part_of(plan, plan.tables);
    let mut marked = [0u16; ROOM];
    let count = change_taken::mark_ways(sheet, plan, store, list, table, row, &mut marked);
    let taken = count.ok_or(Refusal::Contradiction)?;
    store::take_marked(store, list, &marked[..taken]);
    side_table::take_side(sheet, plan, store, table, row);
    Ok(Done {
        taken: taken as u64,
        added: 0,
    })
}
